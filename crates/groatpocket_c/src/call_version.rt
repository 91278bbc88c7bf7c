// Which version the archive is, as include/groatpocket.h numbers it: GP_VERSION_NUMBER.
ghost use Rattle.std.specs.Prelude.{◌≡◌};
ghost use Rattle.groatpocket.specs.Version.{version_number};

#[unsafe(no_mangle)]
pub extern "C" fn gp_version() -> u32
    ensures { result ≡ version_number }
{
    groatpocket::call_version::gp_version()
}
