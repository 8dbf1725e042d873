// The chip without subtraction: a tape translated to its words, and the run of its words over residues modulo m. It has each entry's negative as an entry too, `count` further on.
#![tactic(auto)]

ghost use Rattle.std.specs.Prelude.{◌≡◌, ◌≢◌, ◌++◌, ℕ, ◌*◌, ◌≤◌, ◌<◌, length, get_or, drop};
ghost use Rattle.laws.specs.Deciding.{Decides};
ghost use Rattle.meaning.specs.Words.{entry_of, bad, step_of};
ghost use Rattle.meaning.specs.Walks.{Good};
ghost use Rattle.meaning.specs.SecondChip.{SecondGood, translated as translatedBy, translation, second_multiples_of, Translate};
ghost use Rattle.run.specs.Words.{Sifted};
ghost use Rattle.second.specs.Words.{Negates};
ghost use Rattle.second.specs.Promises.{answered, Answers, Promise};

use refusals::{Reason, Refusal};
use run::{Ran, Residues};
use tape::{Sign, Step};
use width::{DigitSet, Width};

// ---- words
// What one more in a word's code adds to the word: the code stands over twelve bits of entry.
const CODE: u16 = 4096;

// Whether a word negates its entry: a load negated, or a subtraction.
fn negates(word: u16) -> bool
    ensures { Decides result (Negates word) }
{
    match tape::decode(word) {
        Step::Load(m) | Step::Add(m) => matches!(m.sign, Sign::Minus),
        _ => false,
    }
}

// ---- the translation
// A word that is not bad, for the second chip: what negates has the code before, and the entry `count` further on.
fn turned(count: u16, word: u16) -> u16
    requires { (count ≤ 64) × (entry_of word < count) × (step_of word ≢ bad) }
    ensures { result ≡ translatedBy count word }
{
    if negates(word) {
        word - CODE + count
    } else {
        word
    }
}

// Writes the translation of a tape whose words are good.
fn write(count: u16, tape: &[u16], words: &mut [u16])
    requires count_bound { (count ≤ 64) × (length tape.now ≤ length words.old) }
    requires by_index { (i : ℕ) → i < length tape.now → Good count i (get_or tape.now i 0) }
    ensures { words.new ≡ translation count tape.now ++ drop (length tape.now) words.old }
{
    for (i, word) in tape.iter().enumerate() {
        words[i] = turned(count, *word);
    }
}

// What a translation is for C: a refusal's number and place, or the count of its words.
#[repr(C)]
#[derive(Clone, Copy)]
pub struct Translated {
    pub refusal: u8,
    pub place: u16,
    pub words: u16,
}

impl From<Result<u16, Refusal>> for Translated {
    ghost from_gives = { Answers };

    fn from(answer: Result<u16, Refusal>) -> Translated {
        match answer {
            Ok(words) => Translated {
                refusal: 0,
                place: 0,
                words,
            },
            Err(refusal) => Translated {
                refusal: refusal.reason.into(),
                place: refusal.place,
                words: 0,
            },
        }
    }
}

// A tape that the run accepts, in the second chip's words, and the count of them: nothing is written before all words and the room for them have been judged.
pub fn translate(set: DigitSet, tape: &[u16], words: &mut [u16]) -> Result<u16, Refusal>
    ensures { Translate set.width set.largest tape.now words.old (answered result) words.new }
{
    let count = set.tried()?.entries();
    if Width::MOST_WORDS < tape.len() {
        return Err(Reason::LongTape.into());
    }
    if let Some(place) = run::first_bad(count, tape) {
        return Err(Refusal {
            reason: Reason::BadWord,
            place: place as u16,
        });
    }
    if words.len() < tape.len() {
        return Err(Reason::ShortTape.into());
    }
    write(count as u16, tape, words);
    Ok(tape.len() as u16)
}

// ---- the run
// Whether a word is good at its index: as in a tape, and it negates nothing.
fn good(count: usize, index: usize, word: u16) -> bool
    requires { 0 < count }
    ensures { Decides result (SecondGood count index word) }
{
    !negates(word) && run::good(count, index, word)
}

// The index of the first bad word.
fn first_bad(count: usize, words: &[u16]) -> Option<usize>
    requires { 0 < count }
    ensures { Sifted (SecondGood count) words.now result }
{
    words
        .iter()
        .enumerate()
        .position(|(i, word)| !good(count, i, *word))
}

// Stores so many odd multiples of the base, and after them what each lacks of the modulus.
fn store(count: usize, modulus: u32, base: u32, multiples: &mut [u32])
    requires modulus_nonzero { 0 < modulus }
    requires count_in_bounds { 2 * count ≤ length multiples.old }
    ensures { multiples.new ≡ second_multiples_of count modulus base ++ drop (2 * count) multiples.old }
{
    run::store(count, modulus, base, multiples);
    // By index: through a `zip` of the two halves it is not known what is written, and an index into one half beside the other is no plainer.
    for e in 0..count {
        multiples[count + e] = run::plus(0, modulus - multiples[e], modulus);
    }
}

// The run of the second chip's words: all are judged before a multiple is stored. None of them subtracts, and the steps are those of the run.
pub fn run_second(
    set: DigitSet,
    tape: &[u16],
    modulus: u32,
    base: u32,
    multiples: &mut [u32],
) -> Result<Ran, Refusal>
    ensures { Promise set.width set.largest tape.now modulus base multiples.old result multiples.new }
{
    let count = set.tried()?.entries();
    if modulus == 0 {
        return Err(Reason::ZeroModulus.into());
    }
    if Width::MOST_WORDS < tape.len() {
        return Err(Reason::LongTape.into());
    }
    let all = 2 * count;
    if multiples.len() < all {
        return Err(Reason::FewMultiples.into());
    }
    if let Some(place) = first_bad(all, tape) {
        return Err(Refusal {
            reason: Reason::BadWord,
            place: place as u16,
        });
    }
    store(count, modulus, base, multiples);
    let state = run::reach(&Residues { modulus, multiples }, tape);
    Ok(Ran {
        residue: state.value,
        doublings: state.doublings,
        additions: state.additions,
        cost: run::cost_of(count),
    })
}
