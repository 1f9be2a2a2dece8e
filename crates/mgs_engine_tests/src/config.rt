// Configurations: the world of a document, and which files are read for it.
use mgs_acl::print_entry;
use mgs_config::{Config, ConfigFault, Files, FilesFault, read_config};
use mgs_marks::Marked;
use mgs_model::{Name, Right};
use mgs_text::Text;
use std::alloc::{AllocError, Global};
use std::process::Abort;
use std::test::Fail;

// Files that are told apart by their paths: `gone` cannot be read, for `full` no memory is left, `most` has 1,048,576 characters, `long`
// has one more, and each other holds `hi`.
#[derive(Drop)]
pub(crate) struct Folder {
    alloc: Global,
    // The paths that were asked for, each with a space behind it.
    asked: String,
    faults: u64,
}

impl Folder {
    pub(crate) fn new(alloc: Global) -> Folder {
        Folder {
            alloc,
            asked: String::new(alloc),
            faults: 0,
        }
    }
}

fn ask(asked: &mut String, path: &str) -> Result<(), AllocError> {
    asked.push_str(path)?;
    asked.push_str(" ")
}

// 64 characters.
const LINE: &str = "abcdefghijklmnopqrstuvwxyzabcdefghijklmnopqrstuvwxyzabcdefghijk\n";

// 1,048,576 characters and the rest.
pub(crate) fn full_text(alloc: Global, rest: &str) -> Result<String, AllocError> {
    let mut text = String::new(alloc);
    for _ in 0..16_384 {
        text.push_str(LINE)?;
    }
    text.push_str(rest)?;
    Ok(text)
}

fn held(alloc: Global, path: &str) -> Result<Vec<char>, AllocError> {
    match path {
        "most" => full_text(alloc, "")?.chars().collect(alloc),
        "long" => full_text(alloc, "a")?.chars().collect(alloc),
        _ => "hi".chars().collect(alloc),
    }
}

impl Files for Folder {
    ghost use Rattle.std.specs.Prelude.{None};

    ghost tells = { λ folder path. None };

    ghost count = { λ folder. folder.faults };

    fn read(&mut self, path: &str) -> Result<Vec<char>, FilesFault> {
        if ask(&mut self.asked, path).is_err() || path == "full" {
            return Err(FilesFault::Short);
        }
        if path == "gone" {
            self.faults = self.faults.saturating_add(1);
            return Err(FilesFault::Unreadable);
        }
        match held(self.alloc, path) {
            Ok(text) => Ok(text),
            Err(_) => Err(FilesFault::Short),
        }
    }

    fn faults(&self) -> u64 {
        self.faults
    }
}

// The configuration of a text, over any files. What it is made of tells proofs nothing.
fn read_over<F: Files>(alloc: Global, text: &str, files: &mut F) -> Result<Config, ConfigFault> {
    read_config(alloc, text, files)
}

pub(crate) fn read(text: &str, files: &mut Folder) -> Result<Config, ConfigFault> {
    read_over(files.alloc, text, files)
}

fn named(name: &str, rt: &impl Abort) -> Name {
    match Name::read(name) {
        Some(name) => name,
        None => panic!(rt; "no name: {name}"),
    }
}

// The text of a buffer.
fn text_of(alloc: Global, config: &Config, name: &str, rt: &impl Abort) -> Result<String, Fail> {
    let name = named(name, rt);
    assert!(rt; config.buffers.has(&name));
    let text = config.buffers.text(&name);
    let characters = text.copy(0, text.len())?;
    let mut copied = String::new(alloc);
    for character in &characters {
        copied.push(*character)?;
    }
    Ok(copied)
}

// The list of a buffer, each entry as it is printed, with `;` behind it.
fn list_of(alloc: Global, config: &Config, name: &str, rt: &impl Abort) -> Result<String, Fail> {
    let name = named(name, rt);
    assert!(rt; config.buffers.has(&name));
    let list = config.buffers.copy_list(&name);
    let mut printed = String::new(alloc);
    for entry in list.as_slice() {
        printed.push_str(print_entry(entry).as_str())?;
        printed.push_str(";")?;
    }
    Ok(printed)
}

// Whether a user may read the text of a buffer.
fn may_read(config: &Config, name: &str, user: &str, rt: &impl Abort) -> bool {
    let (name, user) = (named(name, rt), named(user, rt));
    config.buffers.has(&name)
        && config
            .buffers
            .grants(&config.directory, &name, &user, Right::ReadData)
}

fn is_member(config: &Config, group: &str, user: &str, rt: &impl Abort) -> bool {
    config
        .directory
        .is_member(&named(group, rt), &named(user, rt))
}

// The files of a configuration: each name and path.
fn files_of(alloc: Global, config: &Config) -> Result<String, AllocError> {
    let mut printed = String::new(alloc);
    for file in &config.files {
        printed.push_str(file.name.as_str())?;
        printed.push_str("=")?;
        printed.push_str(file.path.as_str())?;
        printed.push_str(";")?;
    }
    Ok(printed)
}

const OFFICE: &str =
    "[[user]]\nname = \"ann\"\nticket = \"t1\"\n\n[[user]]\nname = \"bob\"\nticket = \"t2\"\n
[[group]]\nname = \"team\"\nmembers = [\"bob\"]\n\n[[group]]\nname = \"ann\"\nmembers = []\n
[[buffer]]\nname = \"notes\"\nowner = \"ann\"\nlist = [\"ALLOW OWNER@ rw\", \"DENY  group:team wr\"]\ntext = \"ab\\nc\"\n
[[buffer]]\nname = \"Plan!\"\nowner = \"bob\"\nlist = [\"ALLOW OWNER@ r\", \"ALLOW GROUP@ r\"]\n
[[buffer]]\nname = \"log\"\nowner = \"ann\"\ngroup = \"team\"\nlist = [\"ALLOW GROUP@ r\"]\nfile = \"log.txt\"\n";

// What the document says of users and their tickets, and of groups and their members.
fn has_people(config: &Config, rt: &impl Abort) -> bool {
    config.directory.user("ann").is_some()
        && config.directory.user("bob").is_some()
        && config.directory.user("team").is_none()
        && config.tickets.ticket(b"ann") == Some(b"t1".as_slice())
        && config.tickets.ticket(b"bob") == Some(b"t2".as_slice())
        && config.tickets.ticket(b"team").is_none()
        && is_member(config, "team", "bob", rt)
        && !is_member(config, "team", "ann", rt)
        && config.directory.has_group(&named("ann", rt))
        && !is_member(config, "ann", "ann", rt)
}

// What it says of texts, and of files.
fn has_texts(alloc: Global, config: &Config, rt: &impl Abort) -> Result<bool, Fail> {
    Ok(
        text_of(alloc, config, "notes", rt)?.as_str() == "ab\nc"
            && text_of(alloc, config, "Plan!", rt)?.is_empty()
            && text_of(alloc, config, "log", rt)?.as_str() == "hi"
            && files_of(alloc, config)?.as_str() == "log=log.txt;",
    )
}

// What it says of access lists.
fn has_lists(alloc: Global, config: &Config, rt: &impl Abort) -> Result<bool, Fail> {
    let notes = list_of(alloc, config, "notes", rt)?;
    let log = list_of(alloc, config, "log", rt)?;
    Ok(notes.as_str() == "ALLOW OWNER@ rw;DENY group:team rw;" && log.as_str() == "ALLOW GROUP@ r;")
}

// Who may read what by it.
fn has_readers(config: &Config, rt: &impl Abort) -> bool {
    may_read(config, "Plan!", "bob", rt)
        && !may_read(config, "Plan!", "ann", rt)
        && may_read(config, "log", "bob", rt)
        && !may_read(config, "log", "ann", rt)
}

#[test]
fn a_document_gives_the_world_of_its_tables(rt: HostRuntime) -> Result<(), Fail> {
    let alloc = rt.alloc();
    let mut files = Folder::new(alloc);
    let Ok(config) = read(OFFICE, &mut files) else {
        panic!(rt; "not read");
    };
    assert!(rt; config.buffers.len() == 3);
    assert!(rt; has_people(&config, &rt));
    assert!(rt; has_texts(alloc, &config, &rt)?);
    assert!(rt; has_lists(alloc, &config, &rt)?);
    assert!(rt; has_readers(&config, &rt));
    assert!(rt; files.asked.as_str() == "log.txt ");
    assert!(rt; files.faults() == 0);
    Ok(())
}

const FOREIGN: &str =
    "user = [{name = 'ann', ticket = 't1'}]\nbuffer = [{name = 'notes', owner = 'ann', list = [], text = \"é\\u00e9中\\t\\u0001\\r\\n😀e\\u0301\"}]";

#[test]
fn characters_of_a_text_stay_as_they_are(rt: HostRuntime) -> Result<(), Fail> {
    let alloc = rt.alloc();
    let Ok(config) = read(FOREIGN, &mut Folder::new(alloc)) else {
        panic!(rt; "not read");
    };
    let text = text_of(alloc, &config, "notes", &rt)?;
    assert!(rt; text.as_str() == "\u{e9}\u{e9}\u{4e2d}\t\u{1}\r\n\u{1f600}e\u{301}");
    Ok(())
}

// Buffers of ann, the files that are read for them, and how many of these cannot be.
const READINGS: [(&str, &str, u64); 4] = [
    (
        "file = 'f'}, {name = 'b', owner = 'ann', list = [], file = 'g'}, {name = 'c', owner = 'ann', list = [], file = 'f'}",
        "f g f ",
        0,
    ),
    (
        "file = 'f'}, {name = 'b', owner = 'ann', list = [], file = 'gone'}, {name = 'c', owner = 'ann', list = [], file = 'g'}",
        "f gone ",
        1,
    ),
    (
        "file = 'f'}, {name = 'a', owner = 'ann', list = [], file = 'gone'}, {name = 'c', owner = 'ann', list = [], file = 'g'}",
        "f ",
        0,
    ),
    (
        "text = 'f'}, {name = 'b', owner = 'ann', list = [], file = 'long'}, {name = 'c', owner = 'ann', list = [], file = 'gone'}",
        "long ",
        0,
    ),
];

#[test]
fn files_are_read_in_their_turn(rt: HostRuntime) -> Result<(), Fail> {
    let alloc = rt.alloc();
    for &(tables, asked, faults) in &READINGS {
        let text = format!(in alloc;
            "user = [{{name = 'ann', ticket = 't1'}}]\nbuffer = [{{name = 'a', owner = 'ann', list = [], {tables}]"
        )?;
        let mut files = Folder::new(alloc);
        let _ = read(text.as_str(), &mut files);
        assert!(rt; files.asked.as_str() == asked, "{tables}");
        assert!(rt; files.faults() == faults, "{tables}");
    }
    Ok(())
}

#[test]
fn no_file_is_read_where_users_are_at_fault(rt: HostRuntime) {
    let mut files = Folder::new(rt.alloc());
    let text =
        "user = [{name = 'ann'}]\nbuffer = [{name = 'a', owner = 'ann', list = [], file = 'gone'}]";
    assert!(rt; read(text, &mut files).is_err());
    assert!(rt; files.asked.is_empty());
    assert!(rt; files.faults() == 0);
}
