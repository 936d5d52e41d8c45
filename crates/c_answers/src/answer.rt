// The values that a call returns besides its buffers.
ghost use Rattle.std.specs.Prelude.{◌≡◌};

/// The values that a call returns besides its buffers. A field that a call doesn't use is 0.
#[repr(C)]
#[derive(Clone, Copy)]
pub struct Answer {
    /// The status: 0 if the call succeeded, and otherwise the reason why it didn't.
    pub status: u32,
    /// The number n of the first test En that refuses the file, if a file is refused.
    pub file_refusal: u32,
    /// The number of segments, libraries, steps or program headers. If an update is refused, the
    /// number of changes before the refused one.
    pub count: u64,
    /// The number of preloads.
    pub preloads: u64,
    /// The number of bytes of an image with its names, of all names, of a text, of a file or of the
    /// plan.
    pub bytes: u64,
    /// The length of the whole text, in bytes.
    pub text: u64,
    /// The number of changes since the disk was formatted.
    pub generation: u64,
    /// The number of objects of an image.
    pub objects: u64,
}

impl Answer {
    /// Returns an answer with `status`, and 0 in all other fields.
    pub(crate) fn of(status: u32) -> Answer
        ensures { result ≡ record {
          status = status;
          file_refusal = 0;
          count = 0;
          preloads = 0;
          bytes = 0;
          text = 0;
          generation = 0;
          objects = 0;
        } }
    {
        Answer {
            status,
            file_refusal: 0,
            count: 0,
            preloads: 0,
            bytes: 0,
            text: 0,
            generation: 0,
            objects: 0,
        }
    }
}
