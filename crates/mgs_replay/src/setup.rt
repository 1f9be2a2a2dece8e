// The users, groups and buffers of a script, before its first session.
ghost use Rattle.std.specs.Prelude.{◌≡◌, ◌<◌, IfOk, IfSome, [], length, map, position, is_some};
ghost use Rattle.mgs_acl.specs.Spelling.{entry_in};
ghost use Rattle.mgs_model.specs.World.{find_buffer};
ghost use Rattle.mgs_script.specs.Lines.{line_view, User, Group, Buffer};
ghost use Rattle.mgs_replay.specs.SetupFaults.{fault_in};
ghost use Rattle.mgs_replay.specs.Settings.{first_world, are_names, is_group, buffer_refused};
ghost use Rattle.mgs_replay.specs.Setups.{cannot_add, Listed, Lengthened, PutsEntry, PutsGroup, PutsText, Sets, drafted_buffer, buffers_in, is_drafted, AreFit, OnlyShort};

use mgs_acl::{List, read_entry, user_named};
use mgs_buffers::{AddFault, Buffers};
use mgs_core::Core;
use mgs_marks::Marked;
use mgs_model::{BUFFER_LIMIT, Name, Short, TEXT_LIMIT};
use mgs_policy::{Directory, DirectoryFault};
use mgs_script::{Line, LineFault};
use mgs_store::RefusingStore;
use std::alloc::Global;
use std::marker::Model;

/// A buffer that is still being written down.
#[derive(Drop)]
struct Draft<'a> {
    name: &'a str,
    owner: &'a str,
    group: Option<&'a str>,
    list: List,
    text: Vec<char>,
}

/// The users, groups and buffers so far. All of these can be kept by a server.
#[derive(Drop)]
pub(crate) struct Setup<'a> {
    alloc: Global,
    directory: Directory,
    drafts: Vec<Draft<'a>>,
}

impl<'a> Model for Setup<'a> {
    ghost use Rattle.mgs_model.specs.World.{World};

    ghost Value = { World };

    ghost use Rattle.mgs_replay.specs.Setups.{setup_world, buffers_in, AreFit};

    ghost view = { λ s. setup_world s.directory (buffers_in s.drafts.items) };

    ghost invariant = { λ s. AreFit (buffers_in s.drafts.items) };
}

// Puts an entry last in the list.
fn add_entry(draft: &mut Draft, entry: &str) -> Result<(), LineFault>
    ensures list { Listed result draft.old.list draft.new.list (entry_in entry.now) }
    ensures text { draft.new.text.items ≡ draft.old.text.items }
    ensures name { draft.new.name.now ≡ draft.old.name.now }
    ensures owner { draft.new.owner.now ≡ draft.old.owner.now }
    ensures group { draft.new.group ≡ draft.old.group }
{
    let Ok(entry) = read_entry(entry) else {
        return Err(LineFault::Bad);
    };
    draft
        .list
        .insert(draft.list.len(), entry)
        .map_err(|_| LineFault::Bad)
}

// Puts characters after the text.
fn add_text(draft: &mut Draft, text: &[char]) -> Result<(), LineFault>
    ensures text { Lengthened result draft.old.text.items draft.new.text.items text.now }
    ensures list { draft.new.list ≡ draft.old.list }
    ensures name { draft.new.name.now ≡ draft.old.name.now }
    ensures owner { draft.new.owner.now ≡ draft.old.owner.now }
    ensures group { draft.new.group ≡ draft.old.group }
{
    if text.len() > TEXT_LIMIT || draft.text.len() > TEXT_LIMIT - text.len() {
        return Err(LineFault::Bad);
    }
    match draft.text.extend_from_slice(text) {
        Ok(()) => Ok(()),
        Err(_) => Err(LineFault::Short),
    }
}

// The place of the buffer of that name.
fn place_of(drafts: &[Draft], name: &[u8]) -> Option<usize>
    ensures at { result ≡ position (is_drafted name.now) drafts.now }
    ensures within { IfSome result (λ i. i < length drafts.now) }
{
    drafts
        .iter()
        .position(|draft| name == draft.name.as_bytes())
}

fn has_draft(drafts: &[Draft], name: &[u8]) -> bool
    ensures { result ≡ is_some (find_buffer name.now (buffers_in drafts.now)) }
{
    place_of(drafts, name).is_some()
}

// Puts an entry last in the list of the buffer of that name.
fn entry_line(drafts: &mut [Draft], name: &Name, entry: &str) -> Result<(), LineFault>
    ensures { PutsEntry result name.now (entry_in entry.now) (buffers_in drafts.old) (buffers_in drafts.new) }
{
    match place_of(drafts, name.as_bytes()) {
        Some(at) => add_entry(&mut drafts[at], entry),
        None => Err(LineFault::Bad),
    }
}

fn is_group(directory: &Directory, name: &str) -> bool
    ensures { result ≡ is_group name.now directory.now }
{
    match user_named(name) {
        Some(name) => directory.has_group(&name),
        None => false,
    }
}

// The buffer of that name gets its owning group, where that is a group of the directory.
fn owngroup_line<'a>(
    drafts: &mut [Draft<'a>],
    directory: &Directory,
    name: &Name,
    group: &'a str,
) -> Result<(), LineFault>
    ensures { PutsGroup result name.now group.now directory.now (buffers_in drafts.old) (buffers_in drafts.new) }
{
    if !is_group(directory, group) {
        return Err(LineFault::Bad);
    }
    match place_of(drafts, name.as_bytes()) {
        Some(at) => {
            drafts[at].group = Some(group);
            Ok(())
        }
        None => Err(LineFault::Bad),
    }
}

// Puts characters after the text of the buffer of that name.
fn text_line(drafts: &mut [Draft], name: &Name, text: &[char]) -> Result<(), LineFault>
    ensures { PutsText result name.now text.now (buffers_in drafts.old) (buffers_in drafts.new) }
{
    match place_of(drafts, name.as_bytes()) {
        Some(at) => add_text(&mut drafts[at], text),
        None => Err(LineFault::Bad),
    }
}

// Every fault but out of memory was checked at its line.
fn add_all<T: Marked + Drop>(alloc: Global, drafts: &[Draft]) -> Result<Buffers<T>, AddFault>
    requires { AreFit (buffers_in drafts.now) }
    ensures kept { IfOk result (λ b. b ≡ map drafted_buffer drafts.now) }
    ensures fault { OnlyShort result }
{
    let mut buffers = Buffers::new(alloc);
    for draft in drafts {
        let list = draft.list.copy();
        match buffers.add(
            draft.name,
            draft.owner,
            draft.group,
            list,
            &draft.text,
            false,
        ) {
            Ok(()) => {}
            Err(fault) => return Err(fault),
        }
    }
    Ok(buffers)
}

fn buffers_of<T: Marked + Drop>(alloc: Global, drafts: &[Draft]) -> Result<Buffers<T>, Short>
    requires { AreFit (buffers_in drafts.now) }
    ensures { IfOk result (λ b. b ≡ map drafted_buffer drafts.now) }
{
    match add_all(alloc, drafts) {
        Ok(buffers) => Ok(buffers),
        Err(_) => Err(Short),
    }
}

// Whether a buffer and its owner may be called so.
fn are_names(name: &str, owner: &str) -> bool
    ensures { result ≡ are_names name.now owner.now }
{
    match (Name::read(name), user_named(owner)) {
        (Some(_), Some(_)) => true,
        _ => false,
    }
}

// A line that the directory refuses is refused.
fn line_fault(fault: DirectoryFault) -> LineFault
    ensures { result ≡ fault_in fault }
{
    match fault {
        DirectoryFault::Short => LineFault::Short,
        _ => LineFault::Bad,
    }
}

impl<'a> Setup<'a> {
    /// No user, no group and no buffer.
    pub(crate) fn new(alloc: Global) -> Self
        ensures { result ≡ first_world }
    {
        Setup {
            alloc,
            directory: Directory::new(alloc),
            drafts: Vec::new(alloc),
        }
    }

    fn add_user(&mut self, name: &str) -> Result<(), LineFault>
        ensures { Sets result (User name.now) self.old self.new }
    {
        self.directory.add_user(name).map_err(line_fault)
    }

    fn add_group(&mut self, name: &str, members: &[&str]) -> Result<(), LineFault>
        ensures { Sets result (Group name.now (map (λ member. member.now) members.now)) self.old self.new }
    {
        self.directory.add_group(name, members).map_err(line_fault)
    }

    // A buffer's owner is a user, its name is new, and there are 256 at most.
    fn cannot_add(&self, name: &str, owner: &str) -> bool
        ensures { result ≡ cannot_add self.now name.now owner.now }
    {
        !are_names(name, owner)
            || self.directory.user(owner).is_none()
            || has_draft(&self.drafts, name.as_bytes())
            || self.drafts.len() >= BUFFER_LIMIT
    }

    // The same by the rules of `Buffers::add`, and of owners.
    #[tactic(auto, using(crate::proofs::Fits::refused_as))]
    fn refuses(&self, name: &str, owner: &str) -> bool
        ensures { result ≡ buffer_refused self.now name.now owner.now }
    {
        self.cannot_add(name, owner)
    }

    fn add_buffer(&mut self, name: &'a str, owner: &'a str) -> Result<(), LineFault>
        ensures { Sets result (Buffer name.now owner.now) self.old self.new }
    {
        if self.refuses(name, owner) {
            return Err(LineFault::Bad);
        }
        let draft = Draft {
            name,
            owner,
            group: None,
            list: List::new(),
            text: Vec::new(self.alloc),
        };
        match self.drafts.push(draft) {
            Ok(()) => Ok(()),
            Err(_) => Err(LineFault::Short),
        }
    }

    /// Runs a line that stands before the first `open`. `Bad`: it is refused, or it is a line of sessions, of which none
    /// is open yet. `Short` is out of memory, which comes only where the line is not refused. Both leave all as it was.
    pub(crate) fn run(&mut self, line: Line<'a>) -> Result<(), LineFault>
        ensures { Sets result (line_view line.entry) self.old self.new }
    {
        match line {
            Line::Nothing => Ok(()),
            Line::User { name } => self.add_user(name),
            Line::Group { name, members } => self.add_group(name, &members),
            Line::Buffer { name, owner } => self.add_buffer(name, owner),
            Line::OwnGroup { buffer, group } => {
                owngroup_line(&mut self.drafts, &self.directory, &buffer, group)
            }
            Line::Entry { buffer, entry } => entry_line(&mut self.drafts, &buffer, entry),
            Line::Text { buffer, text } => text_line(&mut self.drafts, &buffer, &text),
            Line::Open { .. } | Line::Keys { .. } | Line::Show { .. } | Line::Close { .. } => {
                Err(LineFault::Bad)
            }
        }
    }

    /// A server over these users and buffers, without a session. No buffer of a script has a file, so nothing is saved.
    #[tactic(auto, using(crate::proofs::Drafts::marked_buffers, crate::proofs::Drafts::unmarked_drafts))]
    pub(crate) fn into_core<T: Marked + Drop>(self) -> Result<Core<T, RefusingStore>, Short>
        ensures world { IfOk result (λ c. c.world ≡ self.entry) }
        ensures sessions { IfOk result (λ c. c.world.sessions ≡ []) }
    {
        let Setup {
            alloc,
            directory,
            drafts,
        } = self;
        let buffers = buffers_of(alloc, &drafts)?;
        Core::new(alloc, directory, buffers, RefusingStore::new())
    }
}
