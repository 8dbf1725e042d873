// What is said of a line: a line of text, the line's number first.
ghost use Rattle.std.specs.Prelude.{[], ◌∷◌, ◌+◌, ◌≤◌, length};
ghost use Rattle.meaning.specs.Salvage.{decimal, dropped, case_only, told};
ghost use Rattle.refusals.specs.Coded.{coded};
ghost use Rattle.sift.specs.Puts.{most_remark, Puts};

use itoa::Buffer;
use refusals::Reason;

// The most characters of a number.
const MOST_DECIMAL: usize = 20;

// The longest remark: two numbers, nine characters between them, and a line feed.
pub const MOST: usize = 2 * MOST_DECIMAL + 10;

// Text at an index of `out`. Gives the index after it.
fn put(text: &[u8], at: usize, out: &mut [u8]) -> usize
    requires { at + length text.now ≤ length out.old }
    ensures { Puts text.now at out.old result out.new }
{
    let end = at + text.len();
    out[at..end].copy_from_slice(text);
    end
}

fn put_decimal(n: u64, at: usize, out: &mut [u8]) -> usize
    requires { at + 20 ≤ length out.old }
    ensures puts { Puts (decimal n) at out.old result out.new }
    ensures upper_bound { result ≤ at + 20 }
{
    let mut characters = Buffer::new();
    let text = characters.format(n);
    put(text.as_bytes(), at, out)
}

// That a line is dropped, and the number of its refusal.
pub fn dropped(number: u64, reason: Reason, out: &mut [u8]) -> usize
    requires { most_remark ≤ length out.old }
    ensures { Puts (told ((number, dropped (coded reason)) ∷ [])) 0 out.old result out.new }
{
    let at = put_decimal(number, 0, out);
    let at = put(b" dropped ", at, out);
    let at = put_decimal(u64::from(u8::from(reason)), at, out);
    put(b"\n", at, out)
}

// That only letters' case changed.
pub fn case_only(number: u64, out: &mut [u8]) -> usize
    requires { most_remark ≤ length out.old }
    ensures { Puts (told ((number, case_only) ∷ [])) 0 out.old result out.new }
{
    let at = put_decimal(number, 0, out);
    put(b" case only\n", at, out)
}
