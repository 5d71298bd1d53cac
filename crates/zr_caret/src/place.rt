//! Where a word of a line stands.

ghost use Rattle.std.specs.Prelude.{◌≡◌};
ghost use Rattle.zr_caret.specs.Shown.{place_of_word};

/// How many bytes stand in front of the word of this number, counted from 0; all of them where there is none.
pub fn place_of_word(number: usize, line: &[u8]) -> usize
    ensures { result ≡ place_of_word number line.now }
{
    let mut left = number;
    let mut inside = false;
    for place in 0..line.len() {
        if line[place] == b' ' {
            inside = false;
        } else if !inside {
            if left == 0 {
                return place;
            }
            left -= 1;
            inside = true;
        }
    }
    line.len()
}
