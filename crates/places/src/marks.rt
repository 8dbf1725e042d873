// The marks of a string, nine words of them, and the count that is read off them.
ghost use Rattle.std.specs.Prelude.{◌≡◌, ◌*◌, ◌≤◌, length};
ghost use Rattle.meaning.specs.Recoding.{mark_words};
ghost use Rattle.places.specs.Ones.{ones_of};

// How many places a word marks.
pub const PLACES: usize = 64;

// The ones of the words, together.
pub fn weigh(marks: &[u64]) -> u32
    requires { length marks.now ≤ mark_words }
    ensures { (result ≡ ones_of marks.now) × (result ≤ 64 * mark_words) }
{
    marks.iter().map(|word| word.count_ones()).sum()
}
