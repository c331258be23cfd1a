//! What a launch file is refused for.
ghost use Rattle.std.specs.Prelude.{◌≡◌};
ghost use Rattle.launch_file.specs.Numbers.{number_of, text_of};

/// A condition for which a launch file is refused: of the file by itself, or of one of its launches
/// against what the launch's kernel asks. `docs/LAUNCH_FILES.md` says when each stands.
#[derive(Clone, Copy, PartialEq, Eq, Debug)]
pub enum Refusal {
    /// L1: the file is no TOML document, or longer than 1,048,576 bytes.
    NotToml,
    /// L2: a table has a key that its format does not name.
    UnknownKey,
    /// L3: a needed key is missing, or a value has another kind.
    KeyMissing,
    /// L4: a size or an offset is none that a launch can have (OpenCL 1.2, section 5.8).
    Sizes,
    /// L5: there are not as many arguments as kernel parameters.
    ArgumentCount,
    /// L6: an argument is not what its parameter takes.
    ArgumentKind,
    /// L7: a value lies outside its parameter's type.
    ValueOutOfRange,
    /// L8: an argument names a buffer that is not listed.
    UnknownBuffer,
    /// L9: two buffers have one name.
    BufferNamedTwice,
    /// L10: two buffers are saved to one file.
    SavedTwice,
    /// L11: a buffer is bound to a constant and to a global parameter.
    ConstantBufferShared,
    /// L12: the kernel requires another work-group size (OpenCL 1.2, section 6.7.2).
    RequiredSize,
    /// L13: local bytes are below 0, or together above 65,536.
    LocalMemory,
    /// L14: a buffer's length is below 0 or too large, or there are too many buffers or bytes.
    Buffers,
    /// L15: the lanes are not 1, 4, 8 or 16.
    Lanes,
    /// L16: the turns are below 0 or above 10^12.
    Turns,
    /// L17: a file lists no launch, or more than 16.
    Launches,
    /// L18: a launch names another kernel than the object file holds.
    OtherKernel,
    /// L19: a buffer is saved under a name of the compile cache.
    SavedUnderCacheName,
}

impl Refusal {
    /// The number that is printed behind `L`, 1 to 19.
    pub fn number(self) -> u16
        ensures { result ≡ number_of self }
    {
        match self {
            Refusal::NotToml => 1,
            Refusal::UnknownKey => 2,
            Refusal::KeyMissing => 3,
            Refusal::Sizes => 4,
            Refusal::ArgumentCount => 5,
            Refusal::ArgumentKind => 6,
            Refusal::ValueOutOfRange => 7,
            Refusal::UnknownBuffer => 8,
            Refusal::BufferNamedTwice => 9,
            Refusal::SavedTwice => 10,
            Refusal::ConstantBufferShared => 11,
            Refusal::RequiredSize => 12,
            Refusal::LocalMemory => 13,
            Refusal::Buffers => 14,
            Refusal::Lanes => 15,
            Refusal::Turns => 16,
            Refusal::Launches => 17,
            Refusal::OtherKernel => 18,
            Refusal::SavedUnderCacheName => 19,
        }
    }

    /// The text that is printed behind the number.
    pub fn text(self) -> &'static [u8]
        ensures { result.now ≡ text_of self }
    {
        match self {
            Refusal::NotToml => b"not TOML",
            Refusal::UnknownKey => b"unknown key",
            Refusal::KeyMissing => b"key missing or wrong",
            Refusal::Sizes => b"sizes",
            Refusal::ArgumentCount => b"argument count",
            Refusal::ArgumentKind => b"argument kind",
            Refusal::ValueOutOfRange => b"value out of range",
            Refusal::UnknownBuffer => b"unknown buffer",
            Refusal::BufferNamedTwice => b"buffer named twice",
            Refusal::SavedTwice => b"saved twice",
            Refusal::ConstantBufferShared => b"constant buffer shared",
            Refusal::RequiredSize => b"required size",
            Refusal::LocalMemory => b"local memory",
            Refusal::Buffers => b"buffers",
            Refusal::Lanes => b"lanes",
            Refusal::Turns => b"turns",
            Refusal::Launches => b"launches",
            Refusal::OtherKernel => b"other kernel",
            Refusal::SavedUnderCacheName => b"saved under a cache name",
        }
    }
}
