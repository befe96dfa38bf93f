//! Files in memory, which contracts see as a list.
ghost use Rattle.std.specs.Prelude.{◌≡◌, ◌++◌, [], ◌∷◌, Some, None, MatchOption, OnOk, OnErr};
ghost use Rattle.rws_board.specs.Files.{bytes_at};

use rws_wire::Text;
use std::alloc::{AllocError, Global};
use std::marker::Model;

/// A file: its path and its bytes.
#[derive(Debug, Drop)]
struct File {
    path: Text,
    bytes: Text,
}

/// Files in order. Of several files of one path the first counts.
#[derive(Debug, Drop)]
pub struct FileList {
    files: Vec<File>,
}

impl Model for FileList {
    ghost use Rattle.std.specs.Prelude.{List};
    ghost use Rattle.rws_board.specs.declared.file_list.File.{File};

    ghost Value = { List File };

    ghost view = { λ list. list.files.items };
}

impl FileList {
    /// No files, which takes no memory.
    pub fn new(alloc: Global) -> FileList
        ensures { result ≡ [] }
    {
        FileList {
            files: Vec::new(alloc),
        }
    }

    /// Puts a file at the end.
    pub fn push(&mut self, path: Text, bytes: Text) -> Result<(), AllocError>
        ensures ok { OnOk result (self.new ≡ self.old ++ record { path = path; bytes = bytes } ∷ []) }
        ensures err { OnErr result (self.new ≡ self.old) }
    {
        self.files.push(File { path, bytes })?;
        Ok(())
    }

    /// The bytes at a path.
    pub(crate) fn bytes_at(&self, path: &[u8]) -> Option<&[u8]>
        ensures { MatchOption result (bytes_at self.now path.now ≡ None) (λ bytes. bytes_at self.now path.now ≡ Some bytes.now) }
    {
        first_at(self.files.as_slice(), path)
    }
}

/// The bytes of the first file of this path.
fn first_at<'a>(files: &'a [File], path: &[u8]) -> Option<&'a [u8]>
    ensures { MatchOption result (bytes_at files.now path.now ≡ None) (λ bytes. bytes_at files.now path.now ≡ Some bytes.now) }
{
    match files {
        [] => None,
        [file, others @ ..] => {
            if file.path.as_slice() == path {
                return Some(file.bytes.as_slice());
            }
            first_at(others, path)
        }
    }
}
