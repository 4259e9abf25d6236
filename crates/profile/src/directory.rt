// The directory of a profile: records of 12 bytes, each with a signature, an offset and a size.
ghost use Rattle.std.specs.Prelude.{◌≡◌, ◌+◌, ◌*◌, ◌≤◌, IfOk, IfSome, take, drop, length};
ghost use Rattle.profile.specs.Checks.{ruled};
ghost use Rattle.profile.specs.Directories.{first_record, directory_checks, found};

use crate::bytes::word;
use crate::fault::Fault;
use crate::reading::Reader;

// Where an element lies in the file.
#[derive(Clone, Copy, PartialEq, Eq, Debug)]
pub(crate) struct Found {
    pub offset: u32,
    pub size: u32,
}

// The place of the first record that has a signature.
fn search(bytes: &[u8], count: usize, signature: u32) -> Option<usize>
    requires few { count ≤ 64 }
    requires inside { 132 + 12 * count ≤ length bytes.now }
    ensures value { result ≡ first_record bytes.now signature count }
    ensures inside { IfSome result (λ place. place + 12 ≤ 132 + 12 * count) }
{
    (0..count)
        .map(|index| 132 + 12 * index)
        .find(|&place| word(bytes, place) == signature)
}

impl Found {
    // The element that has a signature.
    pub(crate) fn read(bytes: &[u8], signature: u32) -> Result<Found, Fault>
        requires { 132 ≤ length bytes.now }
        ensures value { result
            ≡ ruled (directory_checks bytes.now signature) (found bytes.now signature) }
        ensures inside { IfOk result (λ found. found.offset + found.size ≤ length bytes.now) }
    {
        let count = word(bytes, 128) as usize;
        let end = 132 + 12 * count;
        if count > 64 || end > bytes.len() {
            return Err(Fault::Records);
        }
        let Some(record) = search(bytes, count, signature) else {
            return Err(Fault::Absent);
        };
        let offset = word(bytes, record + 4);
        let size = word(bytes, record + 8);
        if (offset as usize) < end || offset as usize + size as usize > bytes.len() {
            return Err(Fault::Outside {
                record: record as u32,
            });
        }
        Ok(Found { offset, size })
    }

    // The element's bytes and its place.
    pub(crate) fn reader<'a>(&self, bytes: &'a [u8]) -> Reader<'a>
        requires { self.now.offset + self.now.size ≤ length bytes.now }
        ensures place { result.place ≡ self.now.offset }
        ensures bytes { result.bytes.now ≡ take self.now.size (drop self.now.offset bytes.now) }
    {
        let start = self.offset as usize;
        Reader {
            place: self.offset,
            bytes: &bytes[start..start + self.size as usize],
        }
    }
}
