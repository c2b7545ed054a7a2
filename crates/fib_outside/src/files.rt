// Files in memory, one of which may be open.
ghost use Rattle.std.specs.Prelude.{◌≡◌, ◌++◌, [], Some, None, length, take, drop, min, is_some, unwrap_or, IfSome, IfNone};
ghost use Rattle.fib_outside.specs.Memory.{files_in, file_of, left_at};

use std::marker::Model;

/// Files by their names, and how much of the open one was read. Of two files of one name the first counts.
#[derive(Drop)]
pub struct Files {
    held: Vec<(String, Vec<u8>)>,
    place: usize,
    at: usize,
}

impl Model for Files {
    ghost use Rattle.fib_outside.specs.Memory.{Held, files_in, left_at};

    ghost Value = { Held };

    ghost view = { λ f. record { files = files_in f.held.items; left = left_at (files_in f.held.items) f.place f.at } };
}

impl Files {
    /// Files, of which none is open.
    pub fn new(files: Vec<(String, Vec<u8>)>) -> Files
        ensures { result ≡ record { files = files_in files.items; left = [] } }
    {
        let place = files.len();
        Files {
            held: files,
            place,
            at: 0,
        }
    }

    /// Leaves no file open.
    pub fn close(&mut self)
        ensures { self.new ≡ record self.old { left = [] } }
    {
        self.place = self.held.len();
        self.at = 0;
    }

    /// Opens the file of this name, or leaves none open where there is none.
    pub fn open(&mut self, name: &str) -> bool
        ensures found { result ≡ is_some (file_of self.old.files name.now) }
        ensures after { self.new ≡ record self.old { left = unwrap_or (file_of self.old.files name.now) [] } }
    {
        self.at = 0;
        match find_file(&self.held, name) {
            Some(place) => {
                self.place = place;
                true
            }
            None => {
                self.place = self.held.len();
                false
            }
        }
    }

    /// Takes the next bytes of the open file, as many as fit, and answers how many.
    pub fn read(&mut self, into: &mut [u8]) -> usize
        ensures len { result ≡ min (length into.old) (length self.old.left) }
        ensures bytes { into.new ≡ take result self.old.left ++ drop result into.old }
        ensures after { self.new ≡ record self.old { left = drop result self.old.left } }
    {
        let Some(file) = self.held.get(self.place) else {
            return 0;
        };
        let len = fill(into, tail(&file.1, self.at));
        self.at += len;
        len
    }
}

// The place of the first file of this name.
fn find_file(files: &[(String, Vec<u8>)], name: &str) -> Option<usize>
    ensures found { IfSome result (λ place. file_of (files_in files.now) name.now ≡ Some (left_at (files_in files.now) place 0)) }
    ensures none { IfNone result (file_of (files_in files.now) name.now ≡ None) }
{
    for (place, file) in files.iter().enumerate() {
        if file.0.as_str() == name {
            return Some(place);
        }
    }
    None
}

// The bytes from an offset on.
fn tail(bytes: &[u8], at: usize) -> &[u8]
    ensures { result.now ≡ drop at bytes.now }
{
    if at > bytes.len() { &[] } else { &bytes[at..] }
}

// Copies as many bytes as fit to the front, and answers how many.
fn fill(into: &mut [u8], bytes: &[u8]) -> usize
    ensures len { result ≡ min (length into.old) (length bytes.now) }
    ensures copied { into.new ≡ take result bytes.now ++ drop result into.old }
{
    let len = into.len().min(bytes.len());
    into[..len].copy_from_slice(&bytes[..len]);
    len
}
