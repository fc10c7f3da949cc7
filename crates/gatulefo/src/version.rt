// The version of the archive.
ghost use Rattle.std.specs.Prelude.{◌≡◌};

// Major times 1,000,000, minor times 1,000, patch. The header made with an archive has the same number as GATULEFO_VERSION.
#[unsafe(no_mangle)]
pub extern "C" fn gatulefo_version() -> u32
    ensures { result ≡ 3000 }
{
    3000
}
