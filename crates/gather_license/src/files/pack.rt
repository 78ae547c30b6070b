//! The pack of a crate.
ghost use Rattle.std.specs.Prelude.{◌≡◌, List, [], ◌∷◌, IfOk, OnErr, true, false, is_some, None, Some, map};
ghost use Rattle.std.specs.Prelude.{if◌then◌else◌, length, option_copied};
ghost use Rattle.deny_text.specs.Path.{components_of};
ghost use Rattle.std.specs.List.{fold, list_any};
ghost use Rattle.std.specs.Iterator.{YieldsFirstBy, item_count};
ghost use Rattle.std.specs.Option.{option_map};
ghost use Rattle.tree_core.specs.declared.reads.ReadKind.TheVariants.{Listing};
ghost use Rattle.tree_core.specs.file_reads.Heard.{read_record_of};
ghost use Rattle.tree_core.specs.file_reads.Views.{heard_file, heard_folder};
ghost use Rattle.tree_core.specs.file_reads.Read.{AnsweredRead, records_of_reads};
ghost use Rattle.gather_license.specs.files.Calls.{GoesBy, IsMadeBy, IsMadeOf, Starves, StarvesAmong, first_records};
ghost use Rattle.gather_license.specs.files.KnownReads as spec;
ghost use Rattle.gather_license.specs.files.KnownReads.{FolderReads, known_reads_by, looked_of, missing_from};
ghost use Rattle.gather_license.specs.files.Pack.{in_path_order, same_path};
ghost use Rattle.gather_license.specs.files.Steps.{Agrees, BeginsPack, unread_pack, with_file, with_path};
ghost use Rattle.gather_license.specs.files.Told.{file_state};
ghost use Rattle.gather_license.specs.files.View.{file_at, normal_heard, paths_of, paths_read, unlisted_of};

use crate::files::file_key::FileKey;
use crate::files::found::found;
use crate::files::license_text::LicenseText;
use crate::files::named_file::NamedFile;
use crate::files::told::FileState;
use deny_text::PathBuf;
use std::alloc::{AllocError, Global};
use std::collections::{BTreeMap, btree_map};
use std::marker::Model;
use tree_core::file_reads::{
    BadRead, FileHeard, FolderHeard, file_record, list_folder, listing_record, read_file,
};
use tree_core::{ReadKind, ReadRecord, Reads, Tree};

/// A licence text in its normal form, or why there is none.
pub type PackFileData = Result<LicenseText, BadRead>;

/// The licence files of a crate, each read once, with the records of the reads. A look-up among n files takes
/// about log2 n comparisons of paths; plain names are compared by their bytes.
#[derive(Drop)]
pub struct LicensePack {
    folder: PathBuf,
    listing: FolderHeard,
    files: BTreeMap<FileKey, PackFileData>,
    reads: Reads,
}

impl Model for LicensePack {
    ghost use Rattle.gather_license.specs.files.View.{PackView, KeepsReadFiles, kept_files};
    ghost use Rattle.tree_core.specs.file_reads.Views.{heard_folder};

    ghost Value = { PackView };

    ghost view = { λ p. record {
      folder = p.folder;
      listing = heard_folder p.listing;
      files = kept_files p.files.entries;
      reads = p.reads;
    } };

    ghost invariant = { λ p. KeepsReadFiles (record {
      folder = p.folder;
      listing = heard_folder p.listing;
      files = kept_files p.files.entries;
      reads = p.reads;
    }) };
}

/// A pack, and whether a clarification holds by its files.
#[derive(Drop)]
pub struct TriedClarification {
    pub pack: LicensePack,
    pub holds: bool,
    /// The number of the first file that does not match, where nothing is there.
    pub missing: Option<usize>,
}

/// A pack, and what is reported of a file of it.
#[derive(Drop)]
struct FileLookUp {
    pack: LicensePack,
    told: FileState,
}

/// A pack, and what a file that a clarification names is.
#[derive(Drop)]
struct FileMatch {
    pack: LicensePack,
    holds: bool,
    absent: bool,
}

/// A text in its normal form; the text as it was read is let go.
fn kept_of(alloc: Global, heard: FileHeard) -> Result<PackFileData, AllocError>
    ensures { IfOk result (λ kept. heard_file kept ≡ normal_heard (heard_file heard)) }
{
    match heard {
        Ok(text) => {
            let license = LicenseText::of(alloc, text.as_str())?;
            Ok(Ok(license))
        }
        Err(error) => Ok(Err(error)),
    }
}

/// The number of a file, where nothing is there.
fn number_where(absent: bool, number: usize) -> Option<usize>
    ensures { result ≡ (if absent then Some number else None) }
{
    if absent { Some(number) } else { None }
}

impl LicensePack {
    /// A pack without files, by what was read of the listing of the folder.
    fn of_listing(
        alloc: Global,
        folder: &str,
        listing: FolderHeard,
    ) -> Result<LicensePack, AllocError>
        ensures { IfOk result (λ pack. pack ≡ record {
          folder = folder.now;
          listing = heard_folder listing;
          files = [];
          reads = read_record_of Listing folder.now (heard_folder listing) ∷ [];
        }) }
    {
        let record = listing_record(alloc, folder, &listing)?;
        let mut reads = Reads::new(alloc);
        reads.push(record)?;
        let folder = PathBuf::copy(alloc, folder)?;
        Ok(LicensePack {
            folder,
            listing,
            files: BTreeMap::new(alloc),
            reads,
        })
    }

    /// The pack of a folder that is not listed, and of which no file is read yet.
    pub fn unread(alloc: Global, folder: &str) -> Result<LicensePack, AllocError>
        ensures { IfOk result (λ pack. pack ≡ unread_pack folder.now) }
    {
        let reads = Reads::new(alloc);
        let folder = PathBuf::copy(alloc, folder)?;
        Ok(LicensePack {
            folder,
            listing: Err(BadRead::Absent),
            files: BTreeMap::new(alloc),
            reads,
        })
    }

    /// The pack and a further file, which was just read, and what is reported of that.
    fn with_file(
        self,
        alloc: Global,
        key: FileKey,
        heard: FileHeard,
    ) -> Result<FileLookUp, AllocError>
        requires { file_at self.files key ≡ None }
        ensures pack { IfOk result (λ looked. looked.pack ≡ with_file self key (heard_file heard)) }
        ensures told { IfOk result (λ looked. looked.told ≡ file_state (normal_heard (heard_file heard))) }
    {
        let LicensePack {
            folder,
            listing,
            mut files,
            mut reads,
        } = self;
        let record = file_record(alloc, ReadKind::LicenseFile, key.path(), &heard)?;
        reads.push(record)?;
        let kept = kept_of(alloc, heard)?;
        let told = FileState::of(&kept);
        files.insert(key, kept)?;
        let pack = LicensePack {
            folder,
            listing,
            files,
            reads,
        };
        Ok(FileLookUp { pack, told })
    }

    /// What is reported of a file, where one at a path of the same parts was read.
    fn told(&self, key: &FileKey) -> Option<FileState>
        ensures told { result ≡ option_map file_state (file_at self.now.files key.now) }
        ensures read { is_some result ≡ list_any (same_path key.now) (paths_read self.now.reads) }
    {
        match self.files.get(key) {
            Some(kept) => Some(FileState::of(kept)),
            None => None,
        }
    }

    /// The pack with the file at a path, which is read where none of the same parts was, and what is reported
    /// of it.
    fn look_up<T: Tree>(
        self,
        alloc: Global,
        tree: &mut T,
        path: &PathBuf,
    ) -> Result<FileLookUp, AllocError>
        ensures paths { IfOk result (λ looked.
            paths_read looked.pack.reads ≡ with_path (paths_read self.reads) path.now) }
        ensures told { IfOk result (λ looked.
            option_map file_state (file_at looked.pack.files path.now) ≡ Some looked.told) }
        ensures goes { IfOk result (λ looked. GoesBy (T.content tree.old) (T.content tree.new) (T.fault_count tree.old)
            (T.fault_count tree.new) (T.trace tree.old) (T.trace tree.new)
            self looked.pack) }
        ensures no_memory { OnErr result (Starves (T.content tree.old) (T.content tree.new) (T.fault_count tree.old)
            (T.fault_count tree.new) (T.trace tree.old) (T.trace tree.new)
            self (λ known_reads. with_path (paths_read self.reads) path.now)) }
    {
        let key = FileKey::of(alloc, path)?;
        match self.told(&key) {
            Some(told) => Ok(FileLookUp { pack: self, told }),
            None => {
                let heard = read_file(alloc, tree, self.folder.as_path(), path.as_path())?;
                self.with_file(alloc, key, heard)
            }
        }
    }

    /// Whether a file that a clarification names has its hash, or is not there; it is read where it was not.
    fn matches<T: Tree, F: NamedFile>(
        self,
        alloc: Global,
        tree: &mut T,
        file: &F,
    ) -> Result<FileMatch, AllocError>
        ensures paths { IfOk result (λ tried.
            paths_read tried.pack.reads ≡ with_path (paths_read self.reads) (F.named file.now).path) }
        ensures holds { IfOk result (λ tried. (known_reads : FolderReads) → Agrees known_reads tried.pack
            → tried.holds ≡ spec.matches known_reads (F.named file.now)) }
        ensures absent { IfOk result (λ tried. (known_reads : FolderReads) → Agrees known_reads tried.pack
            → tried.absent ≡ spec.is_absent (known_reads.file (components_of (F.named file.now).path))) }
        ensures goes { IfOk result (λ tried. GoesBy (T.content tree.old) (T.content tree.new) (T.fault_count tree.old)
            (T.fault_count tree.new) (T.trace tree.old) (T.trace tree.new)
            self tried.pack) }
        ensures no_memory { OnErr result (Starves (T.content tree.old) (T.content tree.new) (T.fault_count tree.old)
            (T.fault_count tree.new) (T.trace tree.old) (T.trace tree.new)
            self (λ known_reads. with_path (paths_read self.reads) (F.named file.now).path)) }
    {
        let looked = self.look_up(alloc, tree, file.path())?;
        Ok(FileMatch {
            pack: looked.pack,
            holds: looked.told.has_hash(file.hash()),
            absent: looked.told.is_absent(),
        })
    }

    /// Tries a clarification by its files: each is looked up in order, up to the first that does not match.
    pub fn tries<T: Tree, F: NamedFile>(
        self,
        alloc: Global,
        tree: &mut T,
        files: &[F],
    ) -> Result<TriedClarification, AllocError>
        // by whatever known reads that agree with the pack that is left, so by those of the crate's own reads
        ensures paths { IfOk result (λ tried. (known_reads : FolderReads) → Agrees known_reads tried.pack
            → paths_read tried.pack.reads
            ≡ fold with_path (paths_read self.reads) (looked_of known_reads (map F.named files.now))) }
        ensures holds { IfOk result (λ tried. (known_reads : FolderReads) → Agrees known_reads tried.pack
            → tried.holds ≡ spec.holds known_reads (map F.named files.now)) }
        ensures missing { IfOk result (λ tried. (known_reads : FolderReads) → Agrees known_reads tried.pack
            → tried.missing ≡ missing_from known_reads 0 (map F.named files.now)) }
        // over any tree: the calls are those of the reads that went into the pack
        ensures goes { IfOk result (λ tried. GoesBy (T.content tree.old) (T.content tree.new) (T.fault_count tree.old)
            (T.fault_count tree.new) (T.trace tree.old) (T.trace tree.new)
            self tried.pack) }
        ensures no_memory { OnErr result (Starves (T.content tree.old) (T.content tree.new) (T.fault_count tree.old)
            (T.fault_count tree.new) (T.trace tree.old) (T.trace tree.new)
            self (λ known_reads. fold with_path (paths_read self.reads) (looked_of known_reads (map F.named files.now)))) }
    {
        let mut pack = self;
        'files: for (place, file) in files.iter().enumerate() {
            let tried = pack.matches(alloc, tree, file)?;
            pack = tried.pack;
            if !tried.holds {
                return Ok(TriedClarification {
                    pack,
                    holds: false,
                    missing: number_where(tried.absent, place),
                });
            }
        }
        Ok(TriedClarification {
            pack,
            holds: true,
            missing: None,
        })
    }

    /// The pack with the files at some paths, in order.
    fn look_up_all<T: Tree>(
        self,
        alloc: Global,
        tree: &mut T,
        paths: &[PathBuf],
    ) -> Result<LicensePack, AllocError>
        ensures paths { IfOk result (λ pack.
            paths_read pack.reads ≡ fold with_path (paths_read self.reads) paths.now) }
        ensures goes { IfOk result (λ pack. GoesBy (T.content tree.old) (T.content tree.new) (T.fault_count tree.old)
            (T.fault_count tree.new) (T.trace tree.old) (T.trace tree.new)
            self pack) }
        ensures no_memory { OnErr result (Starves (T.content tree.old) (T.content tree.new) (T.fault_count tree.old)
            (T.fault_count tree.new) (T.trace tree.old) (T.trace tree.new)
            self (λ known_reads. fold with_path (paths_read self.reads) paths.now)) }
    {
        let mut pack = self;
        'paths: for path in paths {
            let looked = pack.look_up(alloc, tree, path)?;
            pack = looked.pack;
        }
        Ok(pack)
    }

    /// Lists a crate's folder, and reads the licence files that are found.
    pub fn read<T: Tree>(
        alloc: Global,
        tree: &mut T,
        folder: &str,
        license_file: Option<&PathBuf>,
    ) -> Result<LicensePack, AllocError>
        ensures begins { IfOk result (λ pack. BeginsPack folder.now (option_copied license_file.entry) pack) }
        // over any tree: the calls are those of the reads that the pack is made of
        ensures made { IfOk result (λ pack. IsMadeBy (T.content tree.old) (T.content tree.new) (T.fault_count tree.old)
            (T.fault_count tree.new) (T.trace tree.old) (T.trace tree.new)
            folder.now pack) }
        ensures no_memory { OnErr result (StarvesAmong (T.content tree.old) (T.content tree.new) (T.fault_count tree.old)
            (T.fault_count tree.new) (T.trace tree.old) (T.trace tree.new)
            folder.now (λ known_reads. first_records known_reads folder.now (option_copied license_file.entry))) }
    {
        let listing = list_folder(alloc, tree, folder)?;
        let names = found(alloc, &listing, license_file)?;
        let listed = LicensePack::of_listing(alloc, folder, listing)?;
        let pack = listed.look_up_all(alloc, tree, names.items())?;
        Ok(pack)
    }

    /// Why the folder was not listed.
    #[tactic(auto, using(crate::proofs::files::PackLemmas::unlisted_by))]
    pub fn unlisted(&self) -> Option<BadRead>
        ensures { result ≡ unlisted_of self.now.listing }
    {
        match &self.listing {
            Ok(_) => None,
            Err(error) => Some(*error),
        }
    }

    /// The files in path order, each by the spelling that it was first read by.
    pub fn iter(&self) -> LicensePackIter<'_>
        ensures files { result ≡ self.now.files }
        ensures sorted { paths_of self.now.files ≡ in_path_order (paths_read self.now.reads) }
    {
        LicensePackIter {
            held: self.files.iter(),
        }
    }

    /// The file at a path of these parts, if it was read.
    pub(crate) fn file(
        &self,
        alloc: Global,
        path: &PathBuf,
    ) -> Result<Option<&PackFileData>, AllocError>
        ensures { IfOk result (λ found. option_map (λ kept. heard_file kept.now) found
            ≡ file_at self.now.files path.now) }
    {
        let key = FileKey::of(alloc, path)?;
        Ok(self.files.get(&key))
    }

    /// The records of the reads in the order of the calls.
    pub(crate) fn reads(&self) -> &[ReadRecord]
        ensures { result.now ≡ self.now.reads }
    {
        self.reads.items()
    }

    /// How many reads were made for it.
    pub fn reads_made(&self) -> usize
        ensures number { result ≡ length self.now.reads }
        ensures sorted { paths_of self.now.files ≡ in_path_order (paths_read self.now.reads) }
    {
        self.reads.items().len()
    }

    /// The records of the reads in the order of the calls.
    pub fn into_reads(self) -> Reads
        ensures reads { result ≡ self.reads }
        ensures sorted { paths_of self.files ≡ in_path_order (paths_read result) }
        // over any tree: what the pack has is what the answers to the reads that it is made of say
        ensures answered { (reads : List AnsweredRead) → IsMadeOf reads self
            → (records_of_reads reads ≡ result) × Agrees (known_reads_by reads) self }
    {
        self.reads
    }
}

/// The files of a pack that are still to come, in path order.
#[derive(Drop)]
pub struct LicensePackIter<'a> {
    held: btree_map::Iter<'a, FileKey, PackFileData>,
}

impl<'a> Model for LicensePackIter<'a> {
    ghost use Rattle.std.specs.Prelude.{ℕ, List};
    ghost use Rattle.tree_core.specs.file_reads.Heard.{ReadResult};
    ghost use Rattle.gather_license.specs.files.View.{kept_files};

    ghost Value = { List (List ℕ × ReadResult) };

    ghost view = { λ files. kept_files files.held };
}

impl<'a> Iterator for LicensePackIter<'a> {
    type Item = (&'a PathBuf, &'a PackFileData);

    ghost next_gives = { YieldsFirstBy (λ file. (file.0.now, heard_file file.1.now)) (λ files. files) };

    ghost remaining = { item_count (λ files. files) };

    fn next(&mut self) -> Option<(&'a PathBuf, &'a PackFileData)> {
        match self.held.next() {
            Some((key, kept)) => Some((key.path(), kept)),
            None => None,
        }
    }
}
