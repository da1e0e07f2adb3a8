// Operations on the contents of the registers, four bits each in one word.
ghost use Rattle.std.specs.Prelude.{◌≡◌, ◌+◌, ◌%◌, ◌^◌, ◌<◌, ◌≤◌, length, get_or, drop};
ghost use Rattle.table_operations.specs.Arcs.{ArcAt};
ghost use Rattle.table_operations.specs.Packed.{act_packed, perform_packed, Fitting};

use super::configurations::contents_of;
use format::fields::{byte, operation_kind, operation_register};

// What the operation of the two bytes x and y leaves of the registers' contents: nothing where it is a read that fails.
// Cost: constant.
fn operate(regs: u64, x: usize, y: u64) -> Option<u64>
    requires { (x % 16 < 8) × (y < 16) × (regs < 2 ^ 32) }
    ensures { (result ≡ act_packed x y regs) × Fitting result }
{
    let s = 4 * operation_register(x);
    let old = (regs >> s) & 15;
    if operation_kind(x) == 0 {
        if old != y {
            return None;
        }
        return Some(regs);
    }
    Some(regs - (old << s) + (y << s))
}

// The operation at a place of the file.
// Cost: constant.
pub fn operate_at(file: &[u8], at: usize, regs: u64) -> Option<u64>
    requires { (at + 2 ≤ length file.now) × (get_or file.now at 0 % 16 < 8) × (get_or file.now (at + 1) 0 < 16) × (regs < 2 ^ 32) }
    ensures { (result ≡ act_packed (get_or file.now at 0) (get_or file.now (at + 1) 0) regs) × Fitting result }
{
    operate(regs, byte(file, at), byte(file, at + 1) as u64)
}

// The operations of the arc at a place of the file, on the contents of the configuration `own`.
// Cost: one step for each operation.
pub fn pass(file: &[u8], at: usize, own: u64) -> Option<u64>
    requires { ArcAt file.now at }
    ensures { (result ≡ perform_packed (get_or file.now (at + 3) 0) (drop (at + 4) file.now) (own % 2 ^ 32)) × Fitting result }
{
    let p = byte(file, at + 3);
    let mut regs = contents_of(own);
    for k in 0..p {
        regs = operate_at(file, at + 4 + 2 * k, regs)?;
    }
    Some(regs)
}
