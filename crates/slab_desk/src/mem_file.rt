//! Files in memory, found by name.
ghost use Rattle.std.specs.Prelude.{◌≡◌, ◌<◌, None, Some, IfSome, IfNone, slice_index_or};
ghost use Rattle.std.specs.FinMap.{get};
ghost use Rattle.slab_desk.specs.declared.mem_file.MemFile.{MemFile};
ghost use Rattle.slab_desk.specs.MemFile.{IsFirst, IsTarget, files_of, target_name};

use crate::reserved::Reserved;

#[derive(Drop)]
pub struct MemFile {
    pub name: String,
    pub bytes: Reserved,
}

// The place of the first file of a name.
pub fn position(files: &[MemFile], name: &str) -> Option<usize>
    ensures place { IfSome result (λ i. IsFirst files.now name.now i) }
    ensures found { IfSome result (λ i. (d : MemFile) → get (files_of files.now) name.now ≡ Some (slice_index_or files.now i d).bytes.bytes) }
    ensures none { IfNone result (get (files_of files.now) name.now ≡ None) }
{
    for (i, file) in files.iter().enumerate() {
        if file.name.as_str() == name {
            return Some(i);
        }
    }
    None
}

// The place of the first file that has the name of the target.
pub fn target_place(files: &[MemFile], target: Option<usize>) -> Option<usize>
    ensures place { IfSome result (λ i. IsTarget files.now target i) }
    ensures none { IfNone result (target_name files.now target ≡ None) }
{
    let file = files.get(target?)?;
    position(files, file.name.as_str())
}
