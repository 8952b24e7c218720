//! Where a step of a part leads.

ghost use Rattle.std.specs.Prelude.{◌≡◌};
ghost use Rattle.word_table.specs.Onwards.{exit_by, point_by};

/// Where a step of a part leads: to the next point of the part, or out of the part by an exit.
#[derive(Clone, Copy)]
pub enum Onward<P, E> {
    /// The caller stays in the part, and stands at this point.
    Stays(P),
    /// The caller leaves the part by this exit. No step is made at an exit.
    Leaves(E),
}

impl<P: Copy, E: Copy> Onward<P, E> {
    /// Goes to the next point where the caller stays, and answers the exit by which it leaves.
    #[inline(always)]
    pub fn follow(self, at: &mut P) -> Option<E>
        ensures exit { result ≡ exit_by self }
        ensures point { at.new ≡ point_by at.old self }
    {
        match self {
            Onward::Stays(point) => {
                *at = point;
                None
            }
            Onward::Leaves(exit) => Some(exit),
        }
    }
}
