// The run of a tape over residues modulo m: its words are judged, the odd multiples of the base stored, then the steps done.
#![tactic(auto)]

ghost use Rattle.std.specs.Prelude.{◌≡◌, ◌++◌, ℕ, ◌+◌, ◌%◌, ◌≤◌, ◌<◌, ltb, length, get_or, drop};
ghost use Rattle.laws.specs.Deciding.{Decides};
ghost use Rattle.meaning.specs.Words.{most_words};
ghost use Rattle.meaning.specs.Walks.{Carrier, Table, Good};
ghost use Rattle.meaning.specs.Multiples.{cost_of};
ghost use Rattle.meaning.specs.Running.{multiples_of, step_rules};
ghost use Rattle.walk.specs.Steps.{Stepped, Reached};
ghost use Rattle.walk.specs.Residues.{residues};
ghost use Rattle.tape.specs.Steps.{side};
ghost use Rattle.run.specs.Outcomes.{Judged, Promise};
ghost use Rattle.run.specs.Words.{Sifted};
ghost use Rattle.run.specs.Walks.{table_of, HasResidue, Held, Steady};

use refusals::{Reason, Refusal};
use tape::{Move, Sign, Step};
use width::{DigitSet, Width};

// ---- judging
// Whether there is the entry of a move: a run says how many it has.
fn held(count: usize, step: Move) -> bool
    ensures { result ≡ ltb step.entry count }
{
    usize::from(step.entry) < count
}

// Whether a word is good at its index: the first is a load, and no other is.
pub fn good(count: usize, index: usize, word: u16) -> bool
    requires { 0 < count }
    ensures { Decides result (Good count index word) }
{
    match tape::decode(word) {
        Step::Double => index != 0,
        Step::Load(m) => index == 0 && held(count, m),
        Step::Add(m) => index != 0 && held(count, m),
        Step::Bad => false,
    }
}

// The index of the first bad word.
pub fn first_bad(count: usize, words: &[u16]) -> Option<usize>
    requires { 0 < count }
    ensures { Sifted (Good count) words.now result }
{
    words
        .iter()
        .enumerate()
        .position(|(i, word)| !good(count, i, *word))
}

// ---- residues
// The residue of a residue and a number up to the modulus: no sum leaves 32 bits.
pub fn plus(x: u32, y: u32, modulus: u32) -> u32
    requires { (x < modulus) × (y ≤ modulus) }
    ensures { result ≡ (x + y) % modulus }
{
    let room = modulus - y;
    if x < room { x + y } else { x - room }
}

// Stores so many odd multiples of the base.
pub fn store(count: usize, modulus: u32, base: u32, multiples: &mut [u32])
    requires modulus_nonzero { 0 < modulus }
    requires count_in_bounds { count ≤ length multiples.old }
    ensures { multiples.new ≡ multiples_of count modulus base ++ drop count multiples.old }
{
    let mut multiple = base % modulus;
    let twice = plus(multiple, multiple, modulus);
    for stored in &mut multiples[..count] {
        *stored = multiple;
        multiple = plus(multiple, twice, modulus);
    }
}

// What the multiples cost: to make more than the base itself, it is doubled once, and that double added for each.
#[repr(C)]
#[derive(Clone, Copy)]
pub struct Cost {
    pub doublings: u16,
    pub additions: u16,
}

pub fn cost_of(count: usize) -> Cost
    requires { count ≤ 64 }
    ensures { (result.doublings ≡ (cost_of count).doublings) × (result.additions ≡ (cost_of count).additions) }
{
    if count < 2 {
        return Cost {
            doublings: 0,
            additions: 0,
        };
    }
    Cost {
        doublings: 1,
        additions: (count - 1) as u16,
    }
}

// ---- steps
// The residue reached, and the doublings and additions done.
#[derive(Clone, Copy)]
pub struct State {
    pub value: u32,
    pub doublings: u16,
    pub additions: u16,
}

// A chip: its values make a carrier, and a table has the entries that its moves take.
pub trait Chip {
    ghost carrier: { Self → Carrier ℕ };

    ghost table: { Self → Table ℕ };

    // The numbers that are its values, and the entries that are there.
    ghost Value: { Self → ℕ → Type 0 };

    ghost Entry: { Self → ℕ → Type 0 };

    // What no words leave.
    fn start(&self) -> u32
        ensures none { result ≡ (carrier self.now).none }
        ensures value { Value self.now result };

    fn double(&self, value: u32) -> u32
        requires { Value self.now value }
        ensures doubled { result ≡ (carrier self.now).dbl value }
        ensures value { Value self.now result };

    fn load(&self, step: Move) -> u32
        requires { Entry self.now step.entry }
        ensures loaded { result ≡ table self.now (side step.sign) step.entry }
        ensures value { Value self.now result };

    fn add(&self, value: u32, step: Move) -> u32
        requires { Value self.now value × Entry self.now step.entry }
        ensures added { result ≡ (carrier self.now).add value (table self.now (side step.sign) step.entry) }
        ensures value { Value self.now result };
}

// Residues, over lent multiples: a subtraction adds what its multiple lacks of the modulus.
#[derive(Clone, Copy)]
pub struct Residues<'a> {
    pub modulus: u32,
    pub multiples: &'a [u32],
    pub ghost some: { 0 < modulus },
}

impl Chip for Residues<'_> {
    ghost carrier = { λ c. residues c.modulus };

    ghost table = { λ c. table_of c.modulus c.multiples.now };

    ghost Value = { λ c x. x < c.modulus };

    ghost Entry = { λ c e. HasResidue c.modulus c.multiples.now e };

    fn start(&self) -> u32 {
        0
    }

    fn double(&self, value: u32) -> u32 {
        plus(value, value, self.modulus)
    }

    fn load(&self, step: Move) -> u32 {
        self.add(0, step)
    }

    fn add(&self, value: u32, step: Move) -> u32 {
        let multiple = self.multiples[usize::from(step.entry)];
        match step.sign {
            Sign::Plus => plus(value, multiple, self.modulus),
            Sign::Minus => plus(value, self.modulus - multiple, self.modulus),
        }
    }
}

// One word's step.
fn step<C: Chip>(chip: &C, state: State, word: u16) -> State
    requires steady { Steady (C.Value chip.now) state }
    requires held { Held (C.Entry chip.now) word }
    ensures stepped { Stepped (C.carrier chip.now) (C.table chip.now) word state.value state.doublings state.additions result.value result.doublings result.additions }
    ensures value { C.Value chip.now result.value }
{
    match tape::decode(word) {
        Step::Double => State {
            value: chip.double(state.value),
            doublings: state.doublings + 1,
            additions: state.additions,
        },
        Step::Load(m) => State {
            value: chip.load(m),
            doublings: state.doublings,
            additions: state.additions,
        },
        Step::Add(m) => State {
            value: chip.add(state.value, m),
            doublings: state.doublings,
            additions: state.additions + 1,
        },
        Step::Bad => state,
    }
}

// The state that the words reach.
pub fn reach<C: Chip>(chip: &C, words: &[u16]) -> State
    requires few { length words.now ≤ most_words }
    requires held { (i : ℕ) → i < length words.now → Held (C.Entry chip.now) (get_or words.now i 0) }
    ensures { Reached (C.carrier chip.now) (C.table chip.now) words.now result.value result.doublings result.additions }
{
    let mut state = State {
        value: chip.start(),
        doublings: 0,
        additions: 0,
    };
    for word in words {
        state = step(chip, state, *word);
    }
    state
}

// ---- the call
// What a run comes to: the residue reached, the doublings and additions done, and beside them what the multiples cost.
#[derive(Clone, Copy)]
pub struct Ran {
    pub residue: u32,
    pub doublings: u16,
    pub additions: u16,
    pub cost: Cost,
}

// What the steps ask of a call: a modulus that is not 0, a tape no longer than a string's, room for the entries, and words that are good each at its index.
pub fn judged(count: usize, tape: &[u16], modulus: u32, room: usize) -> Result<(), Refusal>
    requires { 0 < count }
    ensures { Judged (step_rules count tape.now modulus room) result }
{
    if modulus == 0 {
        return Err(Reason::ZeroModulus.into());
    }
    if Width::MOST_WORDS < tape.len() {
        return Err(Reason::LongTape.into());
    }
    if room < count {
        return Err(Reason::FewMultiples.into());
    }
    if let Some(place) = first_bad(count, tape) {
        return Err(Refusal {
            reason: Reason::BadWord,
            place: place as u16,
        });
    }
    Ok(())
}

// The run of a tape: all its words are judged before a multiple is stored.
pub fn run(
    set: DigitSet,
    tape: &[u16],
    modulus: u32,
    base: u32,
    multiples: &mut [u32],
) -> Result<Ran, Refusal>
    ensures { Promise set.width set.largest tape.now modulus base multiples.old result multiples.new }
{
    let count = set.tried()?.entries();
    judged(count, tape, modulus, multiples.len())?;
    store(count, modulus, base, multiples);
    let state = reach(&Residues { modulus, multiples }, tape);
    Ok(Ran {
        residue: state.value,
        doublings: state.doublings,
        additions: state.additions,
        cost: cost_of(count),
    })
}
