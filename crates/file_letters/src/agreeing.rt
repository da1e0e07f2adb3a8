// Whether two letter lists agree, place by place (document 02, change 4).
ghost use Rattle.std.specs.Prelude.{◌≡◌, eqb};
ghost use Rattle.std.specs.List.{list_all, zip};
ghost use Rattle.automata.specs.Letters.{keys, same_key};
ghost use Rattle.automata.specs.Lists.{same_by};

use file_fields::letters::key_of;

// Whether two bytes stand for one letter; keys are found only where the bytes differ. Cost: constant.
fn is_same_letter(one: u8, other: u8) -> bool
    ensures { result ≡ same_key one other }
{
    if one == other {
        return true;
    }
    let left = key_of(one);
    let right = key_of(other);
    left == right
}

// Whether each byte stands for the same letter as the one at its place in the other list, as far as the shorter list goes. Cost: the bytes up
// to the first that stands for another letter.
fn pairs_agree(left: &[u8], right: &[u8]) -> bool
    ensures { result ≡ list_all (λ pair. same_key pair.0 pair.1) (zip left.now right.now) }
{
    left.iter()
        .zip(right)
        .all(|(one, other)| is_same_letter(*one, *other))
}

// Whether two lists are of the same letters, place by place. Refuses nothing. Cost: the bytes up to the first that stands for another
// letter.
pub fn same_letters(left: &[u8], right: &[u8]) -> bool
    ensures { result ≡ same_by eqb (keys left.now) (keys right.now) }
{
    left.len() == right.len() && pairs_agree(left, right)
}
