//! What is true of heads, whatever the bytes: the laws on which reading an input head by head rests.
ghost use Rattle.std.specs.Prelude.{◌≡◌, ◌≤◌, ◌<◌, ◌++◌, [], ℕ, List, length};
ghost use Rattle.http_front_head.specs.Heads.{longest_head, IsHead, IsHopeless};
ghost use Rattle.http_front_head.specs.declared.parts.Head.{Head as HeadValue};
ghost use Rattle.http_front_head.specs.declared.parts.Head.TheVariants.{Whole, More};
ghost use Rattle.http_front_head.specs.declared.parts.HeadParts.{HeadParts as PartsValue};

/// Bytes are one head at most. A whole head is there and stays one, whatever follows. More bytes are asked for only
/// where there are few, and of none. Behind what is hopeless no whole head comes.
pub fn heads_are_lawful()
    ensures unique { (b : List ℕ) (x y : HeadValue) → IsHead b x → IsHead b y → x ≡ y }
    ensures within { (b : List ℕ) (n : ℕ) (p : PartsValue) → IsHead b (Whole n p) → (1 ≤ n) × (n ≤ length b) }
    ensures grows { (b c : List ℕ) (n : ℕ) (p : PartsValue) → IsHead b (Whole n p) → IsHead (b ++ c) (Whole n p) }
    ensures short { (b : List ℕ) → IsHead b More → length b < longest_head }
    ensures hopeless { (b c : List ℕ) (x : HeadValue) (n : ℕ) (p : PartsValue) → IsHopeless x → IsHead b x
        → ¬ (IsHead (b ++ c) (Whole n p)) }
    ensures empty { IsHead [] More }
{}
