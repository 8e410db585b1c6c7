// The version of the library.
#![tactic(auto)]

ghost use Rattle.std.specs.Prelude.{◌≡◌};
ghost use Rattle.version.specs.Version.{library_version};

// The ROOTMAP_VERSION of the C header that describes the library.
pub fn current() -> u64
    ensures { result ≡ library_version }
{
    8
}
