//! Which version of the library it is.

ghost use Rattle.std.specs.Prelude.{◌≡◌};

/// The version: the major number times 65,536, the minor number times 256, and the patch number.
pub const VERSION: u32 = 0x0000_0100;

/// The version of the library.
#[unsafe(no_mangle)]
pub extern "C" fn nelgvasti_version() -> u32
    ensures { result ≡ VERSION }
{
    VERSION
}
