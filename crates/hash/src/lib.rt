// The hash of section 2 of document 01: FX over the bytes of a string, modulo 2 to the 64.
#![tactic(auto)]

ghost use Rattle.std.specs.Prelude.{◌≡◌, ◌*◌, ◌%◌, ◌^◌};
ghost use Rattle.model.specs.Limits.{fx_prime};
ghost use Rattle.model.specs.Intern.{fx_step, fx_hash};

const FX_PRIME: u64 = 0x517cc1b727220a95;

const FX_ROTATE_BITS: u32 = 5;

// x times FX_PRIME, modulo 2 to the 64.
pub fn mul_prime(x: u64) -> u64
    ensures { result ≡ (x * fx_prime) % 2 ^ 64 }
{
    x.wrapping_mul(FX_PRIME)
}

// One byte into the hash.
fn fx_step(h: u64, b: u8) -> u64
    ensures { result ≡ fx_step h b }
{
    mul_prime(h.rotate_left(FX_ROTATE_BITS) ^ u64::from(b))
}

pub fn fx_hash(bytes: &[u8]) -> u64
    ensures { result ≡ fx_hash bytes.now }
{
    let mut h: u64 = 0;
    for &b in bytes {
        h = fx_step(h, b);
    }
    h
}
