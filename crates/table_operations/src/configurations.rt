// Configurations as words: the state above the 32 bits of the registers' contents.
ghost use Rattle.std.specs.Prelude.{◌≡◌, ◌+◌, ◌*◌, ◌/◌, ◌%◌, ◌^◌, ◌<◌};

// The state of a configuration.
// Cost: constant.
pub fn state_of(own: u64) -> usize
    ensures { result ≡ own / 2 ^ 32 }
{
    (own >> 32) as usize
}

// The contents of its registers.
// Cost: constant.
pub fn contents_of(own: u64) -> u64
    ensures { result ≡ own % 2 ^ 32 }
{
    own & 0xFFFF_FFFF
}

// The configuration with this state and these contents.
// Cost: constant.
pub fn configuration(state: usize, contents: u64) -> u64
    requires { (state < 256) × (contents < 2 ^ 32) }
    ensures { result ≡ contents + state * 2 ^ 32 }
{
    contents + ((state as u64) << 32)
}
