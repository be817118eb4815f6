//! What stands around the texts of cases.

/// What stands around a text, and around what is wanted of it.
#[derive(Clone, Copy)]
pub struct Frame {
    pub before: &'static str,
    pub behind: &'static str,
    pub wanted_before: &'static str,
    pub wanted_behind: &'static str,
}

/// The frame of a kind of cases: a whole file, an expression that is assigned to a constant, statements of a method
/// with the
/// parameters `p` and `q`, and the same for printing. A body for a fault is left open.
pub fn frame_of(kind: &str) -> Option<Frame> {
    let (before, behind, wanted_before, wanted_behind) = match kind {
        "file" => ("", "", "", ""),
        "expression" => ("X = ", "\n", "(X = ", ")"),
        "body" => (
            "class A\ndef m(p, q)\n",
            "\nend\nend\n",
            "(class A (def m (p q) ",
            "))",
        ),
        "open body" => ("class A\ndef m(p, q)\n", "", "", ""),
        "printed expression" => ("X=", "", "X = ", "\n"),
        "printed body" => (
            "class A\ndef initialize(p)\n",
            "\nend;end",
            "class A\n  def initialize(p)\n",
            "  end\nend\n",
        ),
        _ => return None,
    };
    Some(Frame {
        before,
        behind,
        wanted_before,
        wanted_behind,
    })
}
