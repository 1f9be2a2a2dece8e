// Where buffers are saved: each in the file that a configuration names.
ghost use Rattle.std.specs.Prelude.{◌≡◌, IfOk, map, string_bytes};
ghost use Rattle.std.specs.List.{find};
ghost use Rattle.std.specs.Option.{option_map};
ghost use Rattle.std.specs.Path.{path_bytes};
ghost use Rattle.mgs_model.specs.Names.{same_name};
ghost use Rattle.mgs_disk.specs.Places.{IsTold, AreFound, row_of, row_in, bytes_of, saved_at};

use mgs_config::BufferFile;
use std::alloc::{AllocError, Global};
use std::path::{Path, PathBuf};

/// A buffer, and the file that it is saved in.
#[derive(Drop)]
pub(crate) struct Place {
    /// The buffer.
    name: String,
    /// Its file, as it was named.
    given: String,
    /// Its file, where it was found.
    path: Option<PathBuf>,
}

/// What finds files: links on the way to them are followed.
pub trait Finds {
    ghost use Rattle.std.specs.Prelude.{◌≡◌, ℕ, List, Option, IfOk};
    ghost use Rattle.mgs_disk.specs.Places.{IsTold, bytes_of};

    // What a path leads to, where it is known: a path without links, or nothing.
    ghost leads: { Self → List ℕ → Option (Option (List ℕ)) };

    /// The path without links that a path leads to; none where nothing is there.
    fn find(&self, path: &str) -> Result<Option<PathBuf>, AllocError>
        ensures { IfOk result (λ found. IsTold (leads self.now path.now) (bytes_of found)) };
}

fn place_of<F: Finds>(finds: &F, file: BufferFile) -> Result<Place, AllocError>
    ensures named { IfOk result (λ place. row_in place ≡ row_of file) }
    ensures found { IfOk result (λ place. IsTold (F.leads finds.now (string_bytes place.given)) (bytes_of place.path)) }
{
    let path = finds.find(file.path.as_str())?;
    let BufferFile { name, path: given } = file;
    Ok(Place { name, given, path })
}

/// The places of files, in their order, each where its path leads now.
#[tactic(auto, using(crate::proofs::Placing::placed, crate::proofs::Placing::placed_all))]
pub(crate) fn places_of<F: Finds>(
    finds: &F,
    alloc: Global,
    files: Vec<BufferFile>,
) -> Result<Vec<Place>, AllocError>
    ensures named { IfOk result (λ places. map row_in places.items ≡ map row_of files.items) }
    ensures found { IfOk result (λ places. AreFound (F.leads finds.now) places.items) }
{
    let mut places = Vec::new(alloc);
    for file in files {
        places.push(place_of(finds, file)?)?;
    }
    Ok(places)
}

fn place_named<'a>(places: &'a [Place], name: &str) -> Option<&'a Place>
    ensures { option_map (λ place. place.now) result ≡ find (λ place. same_name (string_bytes place.name) name.now) places.now }
{
    places.iter().find(|place| place.name.as_str() == name)
}

/// The file of the buffer of this name.
pub(crate) fn path_of<'a>(places: &'a [Place], name: &str) -> Option<Path<'a>>
    ensures { option_map path_bytes result ≡ saved_at name.now places.now }
{
    match place_named(places, name) {
        Some(place) => match &place.path {
            Some(path) => Some(path.as_path()),
            None => None,
        },
        None => None,
    }
}
