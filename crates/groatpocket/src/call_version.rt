// Which version the archive is, as include/groatpocket.h numbers it: GP_VERSION_NUMBER.
ghost use Rattle.std.specs.Prelude.{◌≡◌};
ghost use Rattle.groatpocket.specs.Version.{version_number};

pub const VERSION_NUMBER: u32 = 200;

pub fn gp_version() -> u32
    ensures { result ≡ version_number }
{
    VERSION_NUMBER
}
