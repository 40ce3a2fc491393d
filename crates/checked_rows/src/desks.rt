//! A desk with the files of a row.
ghost use Rattle.std.specs.Prelude.{◌≡◌, ◌∷◌, [], IfOk, codes};
ghost use Rattle.std.specs.String.{string_bytes};
ghost use Rattle.slab_desk.specs.Start.{listed, names};

use slab_desk::{Act, MemDesk};
use std::alloc::{AllocError, Global};

// What is said finds this room, and more where a file has more.
const ROOM: usize = 10000;

/// A desk with the files `orders`, `cert` and `yard`, where nothing has been said, so many bytes are moved at once, at least
/// one, and these calls fail.
pub fn desk_of(
    alloc: Global,
    orders: &[u8],
    cert: &[u8],
    yard: &[u8],
    piece: usize,
    failing: Vec<(Act, u32)>,
) -> Result<MemDesk, AllocError> {
    let room = orders.len().max(cert.len()).max(yard.len()).max(ROOM);
    let files = three_files(alloc, orders, cert, yard)?;
    let piece = piece.max(1);
    MemDesk::new(alloc, files, piece, failing, room)
}

fn three_files(
    alloc: Global,
    orders: &[u8],
    cert: &[u8],
    yard: &[u8],
) -> Result<Vec<(String, Vec<u8>)>, AllocError>
    ensures files { IfOk result (λ files. listed files.items ≡ (codes "orders", orders.now) ∷ (codes "cert", cert.now) ∷ (codes "yard", yard.now) ∷ []) }
    ensures names { IfOk result (λ files. names files.items ≡ codes "orders" ∷ codes "cert" ∷ codes "yard" ∷ []) }
{
    let mut files = Vec::new(alloc);
    files.push(named(alloc, "orders", orders)?)?;
    files.push(named(alloc, "cert", cert)?)?;
    files.push(named(alloc, "yard", yard)?)?;
    Ok(files)
}

fn named(alloc: Global, name: &str, bytes: &[u8]) -> Result<(String, Vec<u8>), AllocError>
    ensures name { IfOk result (λ file. string_bytes file.0 ≡ name.now) }
    ensures bytes { IfOk result (λ file. file.1.items ≡ bytes.now) }
{
    Ok((String::from_str(alloc, name)?, bytes.to_vec(alloc)?))
}
