//! A shared heap.

ghost use Rattle.std.specs.Prelude.{ℕ, ◌≡◌, ◌≢◌, ◌<◌, ◌+◌, ◌⊎◌, List, [], ◌++◌, IfOk, IfSome, IsSomeAnd, Option, Some, None, length, vec_capacity};
ghost use Rattle.std.specs.Arc.{arc_value};
ghost use Rattle.errand_steps.specs.Begins.{IsIdle};
ghost use Rattle.heap_geometry.specs.declared.limits.TheConstants.{MAX_CALLERS};
ghost use Rattle.live_heap.specs.Passes.{IsOf};
ghost use Rattle.shared_heap.specs.declared.places.Stand.TheVariants as stand;
ghost use Rattle.shared_heap.specs.declared.places.Given.{Given};
ghost use Rattle.shared_heap.specs.Counted.{AreShares, TakesOver, pass_in, passes_of, slots_from};
ghost use Rattle.shared_heap.specs.Gathered.{HasEnded, IsCounted};

use crate::places::{Counts, Deals, Given, GivenBack, Lays, Stand, Takes};
use atomic_table::{Seat, Table};
use heap_geometry::limits::MAX_CALLERS;
use live_heap::closed::Closed;
use live_heap::heap::Heap;
use live_heap::pass::Pass;
use std::alloc::{AllocError, Global};
use std::snapshot::Snapshot;
use std::sync::Arc;

/// How many places there are: one for each caller that a heap may have.
const PLACES: usize = MAX_CALLERS as usize;

/// The word that counts the passes, behind those of the places.
const COUNT: usize = PLACES;

/// How many words there are.
const WORDS: usize = PLACES + 1;

/// The word of a place that is taken.
const TAKEN: u64 = 1;

/// The word of a place in which a pass lies.
const FILLED: u64 = 2;

/// The places of a heap.
type Places = Table<Option<Given>, (Heap, Stand), Heap, GivenBack, Global>;

/// An owner's share in a heap, with a place for each pass that is given back. The places are apart from the heap, so
/// that an owner can lay its share in it down and still step on them.
#[derive(Drop)]
pub struct SharedHeap {
    heap: Arc<Heap, Global>,
    places: Arc<Places, Global>,
    ghost words: { (arc_value places).shared.table_id.words ≡ MAX_CALLERS + 1 },
    ghost slots: { (arc_value places).shared.table_id.slots ≡ MAX_CALLERS },
    ghost same: { ∥ (arc_value places).shared.key ≡ arc_value heap ∥₁ },
}

/// What hands out the tickets of a shared heap.
#[derive(Drop)]
pub struct Dealer {
    seat: Seat<Option<Given>, (Heap, Stand)>,
    next: u32,
}

/// The right to give one pass back, that of the caller with this number. There is one for each place.
#[derive(Drop)]
pub struct Ticket {
    seat: Seat<Option<Given>, (Heap, Stand)>,
    caller: u32,
}

/// That a pass was given back, and how many were before it. Contracts see which one.
#[derive(Drop)]
pub struct Receipt {
    seat: Seat<Option<Given>, (Heap, Stand)>,
    number: u64,
}

/// What an owner that has gone leaves behind.
#[derive(Drop)]
pub struct Left {
    /// That its pass was given back, where it was in no call. For contracts alone.
    pub receipt: Snapshot<Option<Receipt>>,
    /// What came of the heap.
    pub end: End,
}

/// What comes of a heap that an owner leaves.
#[derive(Drop)]
pub enum End {
    /// The pass was the last one of the heap, and the heap is closed.
    Closed(Closed),
    /// Other passes are to be given back yet.
    Others,
    /// The pass was in a call, or the ticket was another caller's: the heap never closes.
    NotGiven,
    /// The pass was the last one, and a block's words are out with one of the passes.
    WordsOut,
    /// The pass was the last one, and there is no memory for a list of the passes.
    NoMemory,
}

impl SharedHeap {
    ghost use Rattle.shared_heap.specs.Shares.{HasItsPlaces, HasLeft, IsDealerOf, IsReceiptFor, IsTicketOf};
    ghost use Rattle.shared_heap.specs.declared.shared.Ticket.{Ticket};

    /// A heap of which no pass has been given back, and what hands out its tickets, from caller 0 on.
    pub fn new(alloc: Global, heap: Heap) -> Result<(SharedHeap, Dealer), AllocError>
        ensures heap { IfOk result (λ shared. arc_value shared.0.heap ≡ heap) }
        ensures dealer { IfOk result (λ shared. IsDealerOf shared.0 0 shared.1) }
    {
        let (places, seat) = Table::vacant(alloc, &[0; WORDS], PLACES, &heap)?;
        let places = Arc::new(alloc, places)?;
        let heap = Arc::new(alloc, heap)?;
        Ok((SharedHeap { heap, places }, Dealer { seat, next: 0 }))
    }

    /// What its type keeps, opened for a call: a field holds it only as a fact that has one proof.
    fn same(&self)
        ensures { HasItsPlaces self.now }
    {}

    /// A share for another owner.
    pub fn share(&self) -> Result<SharedHeap, AllocError>
        ensures heap { IfOk result (λ other. arc_value other.heap ≡ arc_value self.now.heap) }
        ensures tickets { IfOk result (λ other. (caller : ℕ) (ticket : Ticket) → IsTicketOf self.now caller ticket → IsTicketOf other caller ticket) }
    {
        self.same();
        let heap = Arc::try_clone(&self.heap)?;
        let places = Arc::try_clone(&self.places)?;
        Ok(SharedHeap { heap, places })
    }

    /// The ticket of the next caller.
    pub fn ticket(&self, dealer: &mut Dealer) -> Ticket
        requires dealer { IsDealerOf self.now dealer.old.next dealer.old }
        requires next { dealer.old.next < MAX_CALLERS }
        ensures ticket { IsTicketOf self.now dealer.old.next result }
        ensures dealer { IsDealerOf self.now (dealer.old.next + 1) dealer.new }
    {
        self.same();
        let caller = dealer.next;
        let seat = self.places.shared.split_seat::<Deals>(&mut dealer.seat);
        dealer.next = caller + 1;
        Ticket { seat, caller }
    }

    /// The heap.
    pub fn heap(&self) -> &Heap
        ensures { result.now ≡ arc_value self.now.heap }
    {
        &self.heap
    }

    /// Gives a pass back, by the ticket for it, with this share in the heap. The owner whose pass is the last one of
    /// the heap's to be counted closes it, unless a block's words are out with one of them.
    pub fn leave(self, alloc: Global, ticket: Ticket, pass: Pass) -> Left
        requires of { IsOf (arc_value self.heap) pass }
        requires ticket { IsTicketOf self ticket.caller ticket }
        ensures given { IsIdle pass.errand → ticket.caller ≡ pass.errand.caller → IsSomeAnd result.receipt.value (IsReceiptFor self pass) }
        ensures left { HasLeft self ticket.caller pass result.receipt.value result.end }
    {
        self.same();
        let SharedHeap { heap, places } = self;
        let callers = heap.geometry().callers;
        let given = give_back(&places, ticket, Given { pass, share: heap });
        let receipt = Snapshot::of(&given);
        let end = match given {
            None => End::NotGiven,
            Some(receipt) => ended(alloc, &places, receipt, callers),
        };
        Left { receipt, end }
    }
}

/// Lays what an owner gives back into the place that the ticket is for, and counts it. A pass in the middle of a call
/// is let go.
fn give_back(places: &Places, ticket: Ticket, given: Given) -> Option<Receipt>
    requires words { places.now.shared.table_id.words ≡ MAX_CALLERS + 1 }
    requires slots { places.now.shared.table_id.slots ≡ MAX_CALLERS }
    requires of { IsOf places.now.shared.key given.pass × (arc_value given.share ≡ places.now.shared.key) }
    requires ticket { (ticket.seat.table_id ≡ places.now.shared.table_id)
        × (ticket.seat.me ≡ ((places.now.shared.key, stand.Waits ticket.caller), [])) }
    ensures laid { IfSome result (IsCounted places.now.shared.key places.now.shared.table_id given) }
    ensures let_go { result ≡ None → (¬ IsIdle given.pass.errand) ⊎ (ticket.caller ≢ given.pass.errand.caller) }
{
    let Ticket { mut seat, caller } = ticket;
    if !given.pass.idle() || given.pass.caller() != caller {
        return None;
    }
    let place = caller as usize;
    places.shared.store::<Takes>(&mut seat, place, TAKEN);
    let _ = places.shared.exchange(&mut seat, place, Some(given));
    places.shared.store::<Lays>(&mut seat, place, FILLED);
    let number = places.shared.fetch_add::<Counts>(&mut seat, COUNT, 1);
    Some(Receipt { seat, number })
}

/// Closes the heap, where this is the receipt for its last pass.
fn ended(alloc: Global, places: &Places, receipt: Receipt, callers: u32) -> End
    requires callers { callers ≡ places.now.shared.key.layout.callers }
    requires receipt { (own : Given) × (receipt.seat.table_id ≡ places.now.shared.table_id) × TakesOver places.now.shared.key own receipt.number receipt.seat.me.1 }
    ensures { (own : Given) → TakesOver places.now.shared.key own receipt.number receipt.seat.me.1 → HasEnded places.now.shared.key own.pass receipt.number result }
{
    let Receipt { seat, number } = receipt;
    if number + 1 < callers as u64 {
        return End::Others;
    }
    let Ok((passes, heap)) = take_out(alloc, places, seat, callers as usize) else {
        return End::NoMemory;
    };
    // The last share in the heap lay in the last place, so that the heap is there; no clause of `Arc` says so.
    let Some(heap) = heap else {
        return End::NoMemory;
    };
    match heap.close(alloc, passes) {
        Ok(closed) => End::Closed(closed),
        Err(_) => End::WordsOut,
    }
}

/// Takes all passes out of their places, and the heap out of the last share in it.
fn take_out(
    alloc: Global,
    places: &Places,
    mut seat: Seat<Option<Given>, (Heap, Stand)>,
    callers: usize,
) -> Result<(Vec<Pass>, Option<Heap>), AllocError>
    requires table { seat.table_id ≡ places.now.shared.table_id }
    requires taken { (givens : List Given) × (seat.me.1 ≡ slots_from 0 givens) × (length givens ≡ callers) × AreShares places.now.shared.key givens }
    ensures { IfOk result (λ out. (givens : List Given) → seat.me.1 ≡ slots_from 0 givens → length givens ≡ callers → AreShares places.now.shared.key givens
        → (out.0.items ≡ passes_of givens) × IfSome out.1 (λ heap. heap ≡ places.now.shared.key)) }
{
    let mut passes = Vec::with_capacity(alloc, callers)?;
    let mut heap = None;
    for place in 0..callers {
        let given = places.shared.exchange(&mut seat, place, None);
        seat.turn();
        heap = take_in(&mut passes, given);
    }
    Ok((passes, heap))
}

/// A pass more, and the heap, where its share was the last one.
fn take_in(passes: &mut Vec<Pass>, given: Option<Given>) -> Option<Heap>
    requires { length passes.old.items < vec_capacity passes.old }
    ensures items { passes.new.items ≡ passes.old.items ++ pass_in given }
    ensures heap { IfSome result (λ heap. IsSomeAnd given (λ g. heap ≡ arc_value g.share)) }
    ensures room { vec_capacity passes.new ≡ vec_capacity passes.old }
{
    let Given { pass, share } = given?;
    passes.push_reserved(pass);
    Arc::into_inner(share)
}
