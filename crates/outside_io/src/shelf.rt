//! Files that lie one after the other in memory that was reserved before.
ghost use Rattle.std.specs.Prelude.{◌≡◌, ◌+◌, ◌<◌, ◌≤◌, ◌↔◌, [], ◌∷◌, ◌++◌, length, IsTrue};
ghost use Rattle.std.specs.Prelude.{IfOk, MatchOption, None};
ghost use Rattle.std.specs.Option.{option_copied};
ghost use Rattle.outside_io.specs.Shelf.{Shelved, found, without, replaced, laid, LiesAt, FitIn};

use crate::reserved::append;
use std::alloc::{AllocError, Global};
use std::marker::Model;

// The lengths of a file's name and of its content.
#[derive(Clone, Copy)]
struct FileLen {
    name: usize,
    content: usize,
}

// Where a file lies: its index, and where its name and its content begin and end.
#[derive(Clone, Copy)]
struct Place {
    index: usize,
    start: usize,
    middle: usize,
    stop: usize,
}

// Files by name, in memory that was reserved for so many of them and for so many bytes of their names
// and contents. It takes none after that.
#[derive(Drop)]
pub(crate) struct Shelf {
    lens: Vec<FileLen>,
    bytes: Vec<u8>,
}

impl Model for Shelf {
    ghost use Rattle.std.specs.Prelude.{vec_capacity};
    ghost use Rattle.outside_io.specs.Shelf.{Shelved, files_in, AreLaid};

    ghost Value = { Shelved };

    ghost view = { λ s. record {
      files = files_in s.lens.items s.bytes.items;
      names = vec_capacity s.lens;
      room = vec_capacity s.bytes;
    } };

    ghost invariant = { λ s. AreLaid s.lens.items s.bytes.items };
}

impl Shelf {
    // Reserves memory for so many files and so many bytes of their names and contents.
    pub(crate) fn reserve(alloc: Global, names: usize, room: usize) -> Result<Shelf, AllocError>
        ensures { IfOk result (λ s. s ≡ record { files = []; names = names; room = room }) }
    {
        Ok(Shelf {
            lens: Vec::with_capacity(alloc, names)?,
            bytes: Vec::with_capacity(alloc, room)?,
        })
    }

    // Where the first file of this name lies.
    fn place(&self, name: &[u8]) -> Option<Place>
        ensures { MatchOption result (found name.now self.now.files ≡ None)
            (LiesAt name.now self.now.files) }
    {
        let mut start = 0;
        for (index, len) in self.lens.iter().enumerate() {
            let middle = start + len.name;
            let stop = middle + len.content;
            if &self.bytes[start..middle] == name {
                return Some(Place {
                    index,
                    start,
                    middle,
                    stop,
                });
            }
            start = stop;
        }
        None
    }

    // The content of the first file of this name.
    pub(crate) fn get(&self, name: &[u8]) -> Option<&[u8]>
        ensures { option_copied result ≡ found name.now self.now.files }
    {
        let place = self.place(name)?;
        Some(&self.bytes[place.middle..place.stop])
    }

    // How many more files there are places for.
    fn places_left(&self) -> usize
        ensures { result + length self.now.files ≡ self.now.names }
    {
        self.lens.capacity() - self.lens.len()
    }

    // How many more bytes of names and contents there is room for.
    fn room_left(&self) -> usize
        ensures { result + length (laid self.now.files) ≡ self.now.room }
    {
        self.bytes.capacity() - self.bytes.len()
    }

    // Whether there are places and there is room once the file is put.
    pub(crate) fn fits(&self, name: &[u8], content: &[u8]) -> bool
        ensures { IsTrue result ↔ FitIn self.now (replaced name.now content.now self.now.files) }
    {
        let places = self.places_left();
        let room = self.room_left();
        match self.get(name) {
            Some(old) => content.len().saturating_sub(room) <= old.len(),
            None => places > 0 && name.len() + content.len() <= room,
        }
    }

    // Removes the first file of this name, if there is one.
    fn remove(&mut self, name: &[u8])
        ensures { self.new ≡ record self.old { files = without name.now self.old.files } }
    {
        if let Some(place) = self.place(name) {
            self.lens.remove(place.index);
            self.bytes.drain(place.start..place.stop);
        }
    }

    // Lays a file after the others.
    fn push(&mut self, name: &[u8], content: &[u8])
        requires place { length self.old.files < self.old.names }
        requires room { length (laid self.old.files) + (length name.now + length content.now)
            ≤ self.old.room }
        ensures { self.new ≡ record self.old {
          files = self.old.files ++ (name.now, content.now) ∷ [];
        } }
    {
        self.lens.push_reserved(FileLen {
            name: name.len(),
            content: content.len(),
        });
        append(&mut self.bytes, name);
        append(&mut self.bytes, content);
    }
    // Lays the file after the others, in place of the first one of this name.
    pub(crate) fn put(&mut self, name: &[u8], content: &[u8])
        requires { FitIn self.old (replaced name.now content.now self.old.files) }
        ensures { self.new ≡ record self.old {
          files = replaced name.now content.now self.old.files;
        } }
    {
        self.remove(name);
        self.push(name, content);
    }
}
