//! The calls of an edge in memory: a test says beforehand which of them fail, and how much a call
//! takes.
ghost use Rattle.std.specs.Prelude.{◌≡◌, ◌<◌, length};

/// Which calls fail, how many bytes a call takes at most, and how many calls were made.
#[derive(Drop)]
pub struct Calls {
    failing: Vec<u64>,
    per_call: usize,
    made: u64,
    ghost takes_some: { 0 < per_call },
}

impl Calls {
    ghost use Rattle.io_edges.specs.Course.{course_of, fails_now, one_later};

    /// No call so far. The calls that fail are named by number, from 0.
    pub fn new(failing: Vec<u64>, per_call: usize) -> Self
        requires { 0 < per_call }
        ensures { course_of result ≡ record {
          failing = failing.items;
          per_call = per_call;
          calls =
              0;
        } }
    {
        Calls {
            failing,
            per_call,
            made: 0,
        }
    }

    /// Counts a call, and says whether it is one of those that fail.
    pub fn fails_now(&mut self) -> bool
        ensures fails { result ≡ fails_now (course_of self.old) }
        ensures course { course_of self.new ≡ one_later (course_of self.old) }
    {
        let call = self.made;
        self.made = self.made.saturating_add(1);
        self.failing.contains(&call)
    }

    /// How many bytes a call takes at most: one or more.
    pub fn per_call(&self) -> usize
        ensures most { result ≡ (course_of self.now).per_call }
        ensures some { 0 < result }
    {
        self.per_call
    }
}
