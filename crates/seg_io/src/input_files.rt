ghost use Rattle.std.specs.Prelude.{◌≡◌, ℕ, false, ◌<◌, ◌∷◌, [], Some, None, length, min, take, drop, MatchOption, MatchResult};
ghost use Rattle.std.specs.Option.{unwrap_or, is_some};
ghost use Rattle.std.specs.Str.{bytes_eq};
ghost use Rattle.seg_io.specs.Desk.{File, file_named};
ghost use Rattle.seg_io.specs.InMemory.{InputState, bytes_at};

use agglo_model::Memory;
use std::alloc::Global;
use std::marker::Model;

/// A file: its name and its bytes.
#[derive(Drop)]
pub struct StoredFile {
    name: String,
    bytes: Vec<u8>,
}

impl Model for StoredFile {
    ghost use Rattle.std.specs.Prelude.{string_bytes};
    ghost use Rattle.seg_io.specs.Desk.{File};

    ghost Value = { File };

    ghost view = { λ f. record { name = string_bytes f.name; bytes = f.bytes.items } };
}

impl StoredFile {
    /// A file of this name with a copy of these bytes.
    fn new(alloc: Global, name: &str, bytes: &[u8]) -> Result<StoredFile, Memory>
        ensures { MatchResult result
            (λ file. file ≡ record { name = name.now; bytes = bytes.now })
            (λ _. Unit {0}) }
    {
        Ok(StoredFile {
            name: String::from_str(alloc, name)?,
            bytes: Vec::from_slice(alloc, bytes)?,
        })
    }

    /// Whether this is its name.
    fn is_named(&self, name: &str) -> bool
        ensures { result ≡ bytes_eq self.now.name name.now }
    {
        self.name.as_str() == name
    }

    /// All its bytes.
    fn bytes(&self) -> &[u8]
        ensures { result.now ≡ self.now.bytes }
    {
        self.bytes.as_slice()
    }
}

/// A place in a file: the file by its place in the list, and how many bytes were taken.
#[derive(Clone, Copy)]
pub struct Cursor {
    file: usize,
    at: usize,
}

/// The files, the newest first, and the input that is open. A file that a newer one replaces stays
/// in the list, since it may be the input.
#[derive(Drop)]
pub struct InputFiles {
    alloc: Global,
    files: Vec<StoredFile>,
    input: Option<Cursor>,
}

impl Model for InputFiles {
    ghost use Rattle.seg_io.specs.InMemory.{InputState};

    ghost Value = { InputState };

    ghost use Rattle.seg_io.specs.Reading.{is_open, left_of, IsCursorIn};

    ghost view = { λ s. record { files = s.files.items; has_input = is_open s.input; left = left_of s.files.items s.input } };

    ghost invariant = { λ s. IsCursorIn s.files.items s.input };
}

impl InputFiles {
    /// No file, and no input.
    pub fn new(alloc: Global) -> InputFiles
        ensures { result ≡ record { files = []; has_input = false; left = [] } }
    {
        InputFiles {
            alloc,
            files: Vec::new(alloc),
            input: None,
        }
    }

    /// Adds a file, in the place of one of this name; the input stays as it is. Where memory runs
    /// out nothing changes.
    pub fn add(&mut self, name: &str, bytes: &[u8]) -> Result<(), Memory>
        ensures { MatchResult result
            (λ _. self.new ≡ record self.old { files = record { name = name.now; bytes = bytes.now } ∷ self.old.files })
            (λ _. self.new ≡ self.old) }
    {
        let file = StoredFile::new(self.alloc, name, bytes)?;
        self.files.insert(0, file)?;
        self.input = self.input.map(|c| Cursor {
            file: c.file + 1,
            at: c.at,
        });
        Ok(())
    }

    /// Opens the file of this name as the input, and answers whether there is one. Where there is
    /// none, no input is open.
    pub fn open(&mut self, name: &str) -> bool
        ensures found { result ≡ is_some (file_named self.old.files name.now) }
        ensures after { self.new ≡ record self.old { has_input = result; left = unwrap_or (file_named self.old.files name.now) [] } }
    {
        self.input = place_of(self.files.as_slice(), name).map(|file| Cursor { file, at: 0 });
        self.input.is_some()
    }

    /// Gives up the input.
    pub fn close(&mut self)
        ensures { self.new ≡ record self.old { has_input = false; left = [] } }
    {
        self.input = None;
    }

    /// Takes bytes off the input, no more than `most`, and answers how many.
    pub fn read(&mut self, most: usize, into: &mut [u8]) -> usize
        ensures count { result ≡ min (min (length into.old) most) (length self.old.left) }
        ensures front { take result into.new ≡ take result self.old.left }
        ensures after { self.new ≡ record self.old { left = drop result self.old.left } }
    {
        let Some(cursor) = self.input else {
            return 0;
        };
        let rest = &self.files[cursor.file].bytes()[cursor.at..];
        let taken = into.len().min(most).min(rest.len());
        into[..taken].copy_from_slice(&rest[..taken]);
        self.input = Some(Cursor {
            file: cursor.file,
            at: cursor.at + taken,
        });
        taken
    }

    /// How many bytes of the input are left.
    pub fn left(&self) -> usize
        ensures { result ≡ length self.now.left }
    {
        match self.input {
            Some(cursor) => self.files[cursor.file].bytes().len() - cursor.at,
            None => 0,
        }
    }
}

/// The place of the newest file of this name.
fn place_of(files: &[StoredFile], name: &str) -> Option<usize>
    ensures { MatchOption result
        (file_named files.now name.now ≡ None)
        (λ place. (place < length files.now) × (file_named files.now name.now ≡ Some (bytes_at place files.now))) }
{
    for (place, file) in files.iter().enumerate() {
        if file.is_named(name) {
            return Some(place);
        }
    }
    None
}
