//! What callers win from each other, and what that bounds: the exchanges that are lost, the turns that
//! callers take, and how often they install.

ghost use Rattle.std.specs.Prelude.{ℕ, List, [], ◌∷◌, ◌++◌, ◌≡◌, ◌<◌, ◌≤◌, ◌+◌, ◌-◌, ◌*◌, ◌^◌, true, length, count_by};
ghost use Rattle.heap_geometry.specs.declared.geometry.Geometry.{Geometry};
ghost use Rattle.heap_geometry.specs.declared.limits.TheConstants.{CLASSES};
ghost use Rattle.heap_geometry.specs.Geometry.{IsChecked};
ghost use Rattle.errand_steps.specs.Calls.{Call};
ghost use Rattle.errand_steps.specs.Openings.{opening, installed, IsOpening};
ghost use Rattle.errand_steps.specs.Errands.{counts_lost, counts_won};
ghost use Rattle.errand_steps.specs.Steps.{State, Step, action_at, name_at, found_at};
ghost use Rattle.sound_laws.specs.bounds.Contention.{IsDirty, dirty_pairs, lost_of, won_of};
ghost use Rattle.sound_laws.specs.bounds.Installs.{installs_by, installs_against, errand_offers};
ghost use Rattle.sound_laws.specs.bounds.Made.{ReachesWith, made_by};
ghost use Rattle.sound_state.specs.Runs.{BeginsCall, Move, Moved, Reaches};
ghost use Rattle.sound_state.specs.Sound.{IsSound};
ghost use Rattle.sound_state.specs.Sums.{callers_sum};
ghost use Rattle.sound_state.specs.Turns.{one_if, gives_small, refuses_small, is_small_alloc, errand_discards, turn_unanswered};
ghost use Rattle.sound_laws.specs.bounds.Wins.{Wins, no_wins, wins_after};
ghost use Rattle.sound_laws.specs.bounds.Won.{IsWon};

/// Before the first step nothing is won, noted or lost.
pub fn nothing_is_won_at_first()
    ensures opening { (g : Geometry) (s : State) → IsOpening g (opening g) s → IsWon g s no_wins }
    ensures installed { (g : Geometry) (class : ℕ) (s : State) → IsOpening g (installed g class) s → IsWon g s no_wins }
{}

/// A call that begins wins, notes and loses nothing.
pub fn begun_calls_keep_wins()
    ensures { (g : Geometry) (s : State) (w : Wins) (caller : ℕ) (call : Call) (after : State)
        → IsWon g s w → caller < g.callers → BeginsCall s caller call after → IsWon g after w }
{}

/// A step keeps what was won and noted, and the bounds on what is lost, on turns and on installs.
pub fn steps_keep_wins()
    ensures { (g : Geometry) (s : State) (w : Wins) (caller : ℕ) (after : State)
        → IsSound g s → IsWon g s w → caller < g.callers → Step s caller after
        → IsWon g after (wins_after s caller w) }
{}

/// Every run makes a list of what its callers win, with their notes. From one state, and from what was
/// won and noted there, the same moves lead to one state and make one list; and one move more adds to
/// that list what its caller wins by it.
pub fn runs_make_one_list()
    ensures made { (g : Geometry) (s : State) (w : Wins) (moves : List Move) (after : State) → Reaches g s moves after
        → (w' : Wins) × ReachesWith g s w moves after w' }
    ensures reaches { (g : Geometry) (s : State) (w : Wins) (moves : List Move) (after : State) (w' : Wins)
        → ReachesWith g s w moves after w' → Reaches g s moves after }
    ensures grows { (g : Geometry) (s : State) (w : Wins) (moves : List Move) (before : State) (v : Wins) (move : Move) (after : State)
        → ReachesWith g s w moves before v → Moved g before move after
        → ReachesWith g s w (moves ++ move ∷ []) after (made_by before move v) }
    ensures one { (g : Geometry) (s : State) (w : Wins) (moves : List Move) (a b : State) (u v : Wins)
        → ReachesWith g s w moves a u → ReachesWith g s w moves b v → (a ≡ b) × (u ≡ v) }
{}

/// Every run, of any callers, keeps what was won and noted, and the bounds on what is lost, on turns and
/// on installs.
pub fn runs_keep_wins()
    ensures { (g : Geometry) (s : State) (w : Wins) (moves : List Move) (after : State) (w' : Wins)
        → IsSound g s → IsWon g s w → ReachesWith g s w moves after w' → IsWon g after w' }
{}

/// So they hold in every state that callers reach from the state before the first step, for the list
/// that their moves from there make.
pub fn reached_states_have_wins()
    ensures opening { (g : Geometry) (s : State) (moves : List Move) (after : State) (w : Wins) → IsChecked g
        → IsOpening g (opening g) s → ReachesWith g s no_wins moves after w → IsWon g after w }
    ensures installed { (g : Geometry) (class : ℕ) (s : State) (moves : List Move) (after : State) (w : Wins) → IsChecked g
        → class < CLASSES → IsOpening g (installed g class) s → ReachesWith g s no_wins moves after w → IsWon g after w }
{}

/// A caller loses only where another one has won since: its pair with the word of the step was dirty
/// before. And the step uses that pair up, while a win makes at most one pair of each other caller
/// dirty.
pub fn lost_exchanges_were_dirty()
    ensures dirty { (g : Geometry) (s : State) (w : Wins) (caller : ℕ) → IsWon g s w → caller < g.callers
        → counts_lost (s.errand caller).point (found_at s caller) ≡ true → IsDirty w caller (name_at s caller) }
    ensures used { (g : Geometry) (s : State) (w : Wins) (caller : ℕ) → IsSound g s → IsWon g s w → caller < g.callers
        → dirty_pairs g (wins_after s caller w) + one_if (counts_lost (s.errand caller).point (found_at s caller))
        ≤ dirty_pairs g w + (g.callers - 1) * one_if (counts_won (action_at s caller) (found_at s caller)) }
{}

/// The exchanges that callers lost are, with the pairs that are dirty, at most the wins of the list times
/// the other callers. So they are at most those that the callers won, times the other callers, as long
/// as no count of won ones stands at its end.
pub fn losses_are_bounded()
    ensures list { (g : Geometry) (s : State) (w : Wins) → IsWon g s w
        → callers_sum g lost_of s.errand + dirty_pairs g w ≤ (g.callers - 1) * length w.list }
    ensures won { (g : Geometry) (s : State) (w : Wins) → IsWon g s w
        → ((caller : ℕ) → caller < g.callers → (s.errand caller).won < 2 ^ 64 - 1)
        → callers_sum g lost_of s.errand ≤ (g.callers - 1) * callers_sum g won_of s.errand }
{}

/// A caller installs at most as often as it is given a small block, and one time less while it has such
/// a block and offers what it reserved beside.
pub fn installs_are_bounded()
    ensures { (g : Geometry) (s : State) (w : Wins) (caller : ℕ) → IsWon g s w → caller < g.callers
        → count_by (installs_by caller) w.list + errand_offers (s.errand caller) ≤ count_by (gives_small caller) s.history }
{}

/// Beside the turns that gave it a small block or refused it a small need, and the one that has no answer
/// yet, a caller takes no more turns than others installed, and no more than it lost exchanges itself.
/// So all its turns are at most the small blocks given to any caller, the small needs refused to itself,
/// and the turn that has no answer yet. And they are at least the small blocks given to itself, the small
/// needs refused to it, and that turn.
pub fn turns_are_bounded()
    ensures list { (g : Geometry) (s : State) (w : Wins) (caller : ℕ) → IsWon g s w → caller < g.callers
        → (s.errand caller).turns
        ≤ count_by (gives_small caller) s.history + count_by (refuses_small caller) s.history
        + count_by (installs_against caller) w.list + turn_unanswered (s.errand caller) }
    ensures lost { (g : Geometry) (s : State) (caller : ℕ) → IsSound g s → caller < g.callers
        → (s.errand caller).turns + errand_discards (s.errand caller)
        ≤ count_by (gives_small caller) s.history + count_by (refuses_small caller) s.history
        + (s.errand caller).lost + turn_unanswered (s.errand caller) }
    ensures given { (g : Geometry) (s : State) (w : Wins) (caller : ℕ) → IsWon g s w → caller < g.callers
        → (s.errand caller).turns
        ≤ count_by is_small_alloc s.history + count_by (refuses_small caller) s.history + turn_unanswered (s.errand caller) }
    ensures answers { (g : Geometry) (s : State) (caller : ℕ) → IsSound g s → caller < g.callers
        → count_by (gives_small caller) s.history + count_by (refuses_small caller) s.history + turn_unanswered (s.errand caller)
        ≤ (s.errand caller).turns }
{}
