//! Tasks that ask for one another's values and add them up.
ghost use Rattle.std.specs.Prelude.{◌≡◌, ◌<◌, ◌^◌, length, true, false, IfSome, IsNone};
ghost use Rattle.by_need_graph.specs.Graph.{all_below, questions_below};

/// How a run ends that has the values of all its questions.
#[derive(Clone, Copy, Drop)]
pub enum Ending {
    /// One more than the sum of the values.
    Sum,
    Fail(u32),
    /// Neither a value nor an error.
    Stop(u32),
}

/// A task: what it asks for, in order, and how it ends.
#[derive(Drop)]
pub struct Body {
    pub questions: Vec<u32>,
    pub ending: Ending,
}

/// Tasks, each asking only for others of the graph.
#[derive(Drop)]
pub struct Graph {
    pub bodies: Vec<Body>,
    pub ghost few: { length bodies.items < 2 ^ 32 },
    pub ghost closed: { all_below (length bodies.items) bodies.items ≡ true },
}

pub(crate) fn are_below(questions: &[u32], count: usize) -> bool
    ensures { result ≡ questions_below count questions.now }
{
    questions
        .iter()
        .all(|question| (*question as usize) < count)
}

fn is_closed(bodies: &[Body], count: usize) -> bool
    ensures { result ≡ all_below count bodies.now }
{
    bodies.iter().all(|body| are_below(&body.questions, count))
}

impl Graph {
    /// None where a task asks for a number that is no task, or there are 2^32 tasks or more.
    pub fn new(bodies: Vec<Body>) -> Option<Self>
        ensures some { IfSome result (λ graph. graph.bodies ≡ bodies) }
        ensures none { IsNone result → length bodies.items < 2 ^ 32 → all_below (length bodies.items) bodies.items
            ≡ false }
    {
        let count = bodies.len();
        if count > u32::MAX as usize {
            return None;
        }
        if is_closed(&bodies, count) {
            return Some(Graph { bodies });
        }
        None
    }
}
