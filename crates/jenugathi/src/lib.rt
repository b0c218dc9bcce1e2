// What a program in C calls. A state is words that the caller owns; every call is total, whatever the words say.
#![tactic(auto)]

ghost use Rattle.std.specs.Prelude.{◌≡◌};

pub mod composing;
pub mod receiving;
pub mod sending;

// The version of this interface.
#[unsafe(no_mangle)]
pub extern "C" fn c7_version() -> u32
    ensures { result ≡ 1 }
{
    1
}
