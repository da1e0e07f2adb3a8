// Flags: the final flags of a file, by a set of the states that are final.
ghost use Rattle.std.specs.Prelude.{◌≡◌, map, ◌+◌, ◌≤◌, length};
ghost use Rattle.format.specs.Encoding.{flag_byte};
ghost use Rattle.word_sets.specs.Sets.{view};
ghost use Rattle.file_writing.specs.Placing.{Appended};

use file_writing::parts::write_byte;

// 01 for a final state, else 00. Cost: constant.
fn flag_of(is_final: bool) -> u8
    ensures { result ≡ flag_byte is_final }
{
    u8::from(is_final)
}

// A flag for each of n states: 01 for those in the set, else 00. Cost: n.
pub fn write_flags(out: &mut [u8], at: usize, finals: [u64; 4], n: usize) -> usize
    requires { (n ≤ 256) × (at + n ≤ length out.old) }
    ensures { Appended at (map flag_byte (view n finals)) out.old out.new result }
{
    let mut next = at;
    for i in 0..n {
        let flag = flag_of(word_sets::has(finals, i));
        next = write_byte(out, next, flag);
    }
    next
}
