// The reader: wMOF of a lent scalar one digit a call, places n down to 0, then nothing at every later call. `call` does the work on the scalar and a state, and a reader is
// the two together. `read_at`, and `start` with `call` and `moved`, are for a caller that holds no reader.
#![tactic(auto)]

ghost use Rattle.std.specs.Prelude.{◌≡◌, ◌-◌, ◌≤◌, ◌<◌};
ghost use Rattle.meaning.specs.Scalars.{number, order_of};
ghost use Rattle.meaning.specs.Digits.{most_places};
ghost use Rattle.scalar.specs.Orders.{ordered};
ghost use Rattle.reader.specs.States.{digit_at, ready, passed, opened, fresh, call, moved, After};
ghost use Rattle.reader.specs.Calls.{Inside, Answered};

use refusals::Reason;
use scalar::{MOST_BYTES, Order};
use width::Width;

// `place` counts the places to come. Those from `floor` up belong to one window: its digit, `pending`, stands at `spot`, and a 0 at each other place. `refusal` is 0 or a
// refusal's number, and `order` the byte of the order of the scalar's bytes: bytes, since C may hand in a state that it made up, and gets its own back.
#[derive(Clone, Copy)]
pub struct State {
    pub place: usize,
    pub width: u8,
    pub pending: i8,
    pub spot: usize,
    pub floor: usize,
    pub refusal: u8,
    pub order: u8,
}

// What a call gives, a digit or nothing more, and what it changes in the state.
#[derive(Clone, Copy)]
pub struct Taken {
    pub next: Option<i8>,
    pub place: usize,
    pub pending: i8,
    pub spot: usize,
    pub floor: usize,
}

// The number that a reader holds, and what one of its calls gives.
#[derive(Clone, Copy)]
pub struct Reading {
    pub refusal: u8,
    pub next: Option<i8>,
}

// Before any call: no window is open yet over the `places` to come.
fn ready(refusal: u8, width: u8, order: u8, places: usize) -> State
    ensures { result ≡ ready refusal width order places }
{
    State {
        place: places,
        width,
        pending: 0,
        spot: 0,
        floor: places,
        refusal,
        order,
    }
}

// Refused input leaves no place to come.
pub fn start(width: u8, order: Order, scalar: &[u8]) -> State
    ensures { After width (ordered order) scalar.now 0 result }
{
    let code = order.into();
    match Width::known(width) {
        None => ready(Reason::BadWidth.into(), width, code, 0),
        Some(_) if MOST_BYTES < scalar.len() => ready(Reason::LongScalar.into(), width, code, 0),
        Some(_) => ready(0, width, code, 8 * scalar.len() + 1),
    }
}

// The digit at place i of a window.
fn digit_at(i: usize, pending: i8, spot: usize) -> i8
    ensures { result ≡ digit_at i pending spot }
{
    if i == spot { pending } else { 0 }
}

// The highest place to come is passed.
fn pass(place: usize, pending: i8, spot: usize, floor: usize) -> Taken
    requires { 0 < place }
    ensures { result ≡ passed (place - 1) pending spot floor }
{
    let i = place - 1;
    Taken {
        next: Some(digit_at(i, pending, spot)),
        place: i,
        pending,
        spot,
        floor,
    }
}

// The same where no window is open: one opens over the places to come, or one place alone is passed. Cold, since most calls pass a place of an open window: all calls over a
// scalar then take a tenth less time at width 2. In a function apart, with the state after it, this would spare one instruction in seven at width 8, but take two thirds more time.
#[cold]
fn opening(w: Width, order: Order, scalar: &[u8], place: usize) -> Taken
    requires { (0 < place) × (place ≤ most_places) }
    ensures { result ≡ opened w.bits (number (ordered order) scalar.now) (place - 1) }
{
    let width = w.bits();
    let bits = scalar::window(order, scalar, place - 1, width.bits);
    if windows::opening::opens(width, bits) {
        let found = windows::opening::placed(width, windows::look_up(w, bits), place);
        return pass(place, found.unit, found.spot, found.left);
    }
    pass(place, 0, 0, place - 1)
}

// Where no window is open. A state that was made up elsewhere is done where none can open.
fn fresh(scalar: &[u8], state: State) -> Taken
    ensures { result ≡ fresh (order_of state.order) scalar.now state.place state.width state.pending state.spot state.floor }
{
    if 0 < state.place && state.place <= Width::MOST_PLACES {
        if let Some(w) = Width::known(state.width) {
            return opening(w, state.order.into(), scalar, state.place);
        }
    }
    Taken {
        next: None,
        place: 0,
        pending: state.pending,
        spot: state.spot,
        floor: state.floor,
    }
}

// One call on a state.
pub fn call(scalar: &[u8], state: State) -> Taken
    ensures { result ≡ call scalar.now state }
{
    if state.floor < state.place {
        return pass(state.place, state.pending, state.spot, state.floor);
    }
    fresh(scalar, state)
}

// The state after it.
pub fn moved(state: State, taken: Taken) -> State
    ensures { result ≡ moved state taken }
{
    State {
        place: taken.place,
        pending: taken.pending,
        spot: taken.spot,
        floor: taken.floor,
        ..state
    }
}

// Where the window ends that opens over the places to come; where none opens, the highest place alone is passed.
fn end_of(w: Width, order: Order, scalar: &[u8], place: usize) -> usize
    requires { (0 < place) × (place ≤ most_places) }
    ensures { result ≡ (opened w.bits (number (ordered order) scalar.now) (place - 1)).floor }
{
    let width = w.bits();
    let bits = scalar::window(order, scalar, place - 1, width.bits);
    if windows::opening::opens(width, bits) {
        return place.saturating_sub(width.bits as usize);
    }
    place - 1
}

// The digit so many places under the highest to come, in the window that opens there.
fn inside(w: Width, order: Order, scalar: &[u8], place: usize, under: usize) -> i8
    requires { (under < place) × (place ≤ most_places) }
    ensures { Inside w.bits (number (ordered order) scalar.now) place under result }
{
    let taken = opening(w, order, scalar, place);
    digit_at(place - 1 - under, taken.pending, taken.spot)
}

// What `Reader::new` and the call of `Reader::next` after `calls` others give, for a caller that holds no reader. A window that ends above the place asked for is
// passed at once, and not looked up.
pub fn read_at(width: u8, order: Order, scalar: &[u8], calls: u16) -> Reading
    ensures { Answered width (ordered order) scalar.now calls result }
{
    let state = start(width, order, scalar);
    let refusal = state.refusal;
    let Some(w) = Width::known(width) else {
        return Reading {
            refusal,
            next: None,
        };
    };
    let mut place = state.place;
    let mut left = usize::from(calls);
    // Down by whole windows: no index is counted.
    while 0 < place {
        let end = end_of(w, order, scalar, place);
        let count = place - end;
        if left < count {
            return Reading {
                refusal,
                next: Some(inside(w, order, scalar, place, left)),
            };
        }
        place = end;
        left -= count;
    }
    Reading {
        refusal,
        next: None,
    }
}

// A scalar that is lent, and the state of reading it.
#[derive(Drop)]
pub struct Reader<'a> {
    pub scalar: &'a [u8],
    pub state: State,
}

impl<'a> Reader<'a> {
    ghost use Rattle.reader.specs.Calls.{Made};

    pub fn new(width: u8, order: Order, scalar: &'a [u8]) -> Reader<'a>
        ensures { Made width (ordered order) scalar.entry result }
    {
        Reader {
            scalar,
            state: start(width, order, scalar),
        }
    }
}

// Each digit is one of the places to come.
impl Iterator for Reader<'_> {
    type Item = i8;

    ghost use Rattle.std.specs.Iterator.{at_most};
    ghost use Rattle.reader.specs.Calls.{Called};

    ghost next_gives = { λ before next after. Called before after next };

    ghost remaining = { λ reader. at_most reader.state.place };

    fn next(&mut self) -> Option<i8> {
        let taken = call(self.scalar, self.state);
        self.state = moved(self.state, taken);
        taken.next
    }
}
