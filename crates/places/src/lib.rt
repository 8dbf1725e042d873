// A buffer of places and the words that mark them, as the forms write them that go from digit to digit: zeros first, then a digit here and there.
#![tactic(auto)]

pub mod marks;
pub mod opened;

ghost use Rattle.std.specs.Prelude.{◌≡◌, ◌≢◌, ◌<◌, ◌≤◌, pos, length, get_or, set, replicate};
ghost use Rattle.meaning.specs.Digits.{most_places};
ghost use Rattle.meaning.specs.Recoding.{mark_words, marks_of};

// Zeros at every place, and no marks.
pub fn clear(digits: &mut [i8], marks: &mut [u64])
    requires { length marks.old ≡ mark_words }
    ensures digits_after { digits.new ≡ replicate (length digits.old) (pos 0) }
    ensures marks_after { marks.new ≡ marks_of digits.new }
{
    digits.fill(0);
    marks.fill(0);
}

// Puts a digit that is not 0 at a place that holds 0, and its mark.
pub fn put(digits: &mut [i8], marks: &mut [u64], place: usize, digit: i8)
    requires place_in_bounds { place < length digits.old }
    requires digits_len_bound { length digits.old ≤ most_places }
    requires marks_value { marks.old ≡ marks_of digits.old }
    requires pos_value { get_or digits.old place (pos 0) ≡ pos 0 }
    requires digit_nonzero { digit ≢ pos 0 }
    ensures digits_after { digits.new ≡ set digits.old place digit }
    ensures marks_after { marks.new ≡ marks_of digits.new }
{
    // In 32 bits the word's address is found by one step less.
    let q = ((place as u32) / (marks::PLACES as u32)) as usize;
    marks[q] += 1u64 << (place % marks::PLACES);
    digits[place] = digit;
}

// A buffer of places and the words that mark them, both lent. A form is written into it from its zeros.
#[derive(Drop)]
pub struct Places<'a> {
    pub digits: &'a mut [i8],
    pub marks: &'a mut [u64],
    ghost marked: { marks.now ≡ marks_of digits.now },
}

impl<'a> Places<'a> {
    ghost use Rattle.places.specs.Lent.{Lent};

    // Zeros at every place, and no marks.
    pub fn cleared(digits: &'a mut [i8], marks: &'a mut [u64]) -> Places<'a>
        requires { length marks.old ≡ mark_words }
        ensures zeros { result.digits.now ≡ replicate (length digits.old) (pos 0) }
        ensures same_digits { result.digits.ghost_name ≡ digits.entry.ghost_name }
        ensures same_marks { result.marks.ghost_name ≡ marks.entry.ghost_name }
    {
        clear(digits, marks);
        Places { digits, marks }
    }

    // Puts a digit that is not 0 at a place that holds 0, and its mark.
    pub fn put(&mut self, place: usize, digit: i8)
        requires place_in_bounds { place < length self.old.digits.now }
        requires digits_len_bound { length self.old.digits.now ≤ most_places }
        requires pos_value { get_or self.old.digits.now place (pos 0) ≡ pos 0 }
        requires digit_nonzero { digit ≢ pos 0 }
        ensures digits_after { self.new.digits.now ≡ set self.old.digits.now place digit }
        ensures same { Lent self.old self.new }
    {
        put(self.digits, self.marks, place, digit);
    }
}
