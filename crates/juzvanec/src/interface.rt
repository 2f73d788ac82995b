// The number of the C interface, by which a loader tells an archive that is not its header's.
ghost use Rattle.std.specs.Prelude.{◌≡◌};
ghost use Rattle.juzvanec.specs.Interface.{interface_number};

// It goes up where a prototype, a struct or the meaning of a call changes.
#[unsafe(no_mangle)]
pub extern "C" fn juzvanec_interface() -> u32
    ensures { result ≡ interface_number }
{
    7
}
