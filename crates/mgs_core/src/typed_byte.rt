// A byte of a session: in a search and at a prompt it is typed, and else it is a key.
ghost use Rattle.std.specs.Prelude.{◌≡◌, ◌≤◌, ◌<◌, List, Option, IfSome, is_some, length, false, true};
ghost use Rattle.std.specs.Option.{option_map};
ghost use Rattle.mgs_model.specs.Access.{Directory};
ghost use Rattle.mgs_model.specs.Keys.{is_character_byte};
ghost use Rattle.mgs_model.specs.Searching.{read_byte};
ghost use Rattle.mgs_model.specs.Completion.{completion};
ghost use Rattle.mgs_model.specs.declared.search.SearchStep.TheVariants.{Leaves};
ghost use Rattle.mgs_buffers.specs.Judging.{AreJudged, rules_kept};
ghost use Rattle.mgs_buffers.specs.MarkedBuffer.{MarkedBuffer};
ghost use Rattle.mgs_mini.specs.Typing as prompts;
ghost use Rattle.mgs_mini.specs.Typing.{IsFirst};
ghost use Rattle.mgs_session.specs.Seeking.{searching, unsearched};
ghost use Rattle.mgs_session.specs.declared.search.Aim.TheVariants.{Find, Replace};
ghost use Rattle.mgs_session.specs.Playing.{are_played, replacing_all};
ghost use Rattle.mgs_model.specs.Commands.{find_command};
ghost use Rattle.mgs_model.specs.declared.echo_text.Message.TheVariants.{Says, Replaced};
ghost use Rattle.mgs_model.specs.declared.echo_text.Notice.TheVariants.{Silent};
ghost use Rattle.mgs_session.specs.Sessions.{playing_as, prompting, told, unbound, unprompted};
ghost use Rattle.mgs_world.specs.Worlds.{state_of};
ghost use Rattle.mgs_core.specs.Prompted.{names_for, state_completed};
ghost use Rattle.mgs_core.specs.declared.byte_acts.ModeBefore.{ModeBefore};
ghost use Rattle.mgs_core.specs.declared.byte_acts.ModeBefore.TheVariants.{Plain};
ghost use Rattle.mgs_core.specs.ByteSteps.{IsAlone, IsAnswerStep, IsByteStep, IsNamedStep, IsSearchStep, replace_key, search_for};

use crate::byte_acts::{ByteAct, ModeBefore};
use crate::key_byte::{ByteStep, step_command, step_key};
use mgs_buffers::Buffers;
use mgs_cache::Judge;
use mgs_maps::{command_named, name_completion};
use mgs_marks::Marked;
use mgs_mini::{Prompt, Step};
use mgs_model::{Message, Name, Notice, Question, SearchStep, Sequence, TYPED_LIMIT};
use mgs_policy::Directory;
use mgs_search::IncrementalSearch;
use mgs_session::{
    Aim, Replacing, Search, SearchString, Session, fail, hold_keyboard, hold_prompt, hold_search,
    leave_search, rest, set_echo, take_prompt, take_search, tell_unbound,
};

const QUIT: u8 = 0x07;

const RETURN: u8 = 0x0D;

const DELETE: u8 = 0x7F;

/// What the input of a prompt is completed to, where its answer names a buffer or a command. `None`: no name begins with it.
fn completion_for<'a, T: Marked + Drop>(
    buffers: &'a Buffers<T>,
    judge: &mut Judge,
    directory: &Directory,
    user: &Name,
    prompt: &Prompt,
) -> Option<&'a [u8]>
    requires { AreJudged directory.now (rules_kept buffers.now) judge.old }
    ensures value { option_map (λ t. t.now) result ≡ completion (names_for directory.now user.now buffers.now prompt.now.question) prompt.now.input }
    ensures within { IfSome (option_map (λ t. t.now) result) (λ text. length text ≤ 120) }
    ensures judged { AreJudged directory.now (rules_kept buffers.now) judge.new }
{
    if prompt.names_buffer() {
        return buffers.completion(judge, directory, user, prompt.input());
    }
    if prompt.names_command() {
        return name_completion(prompt.input());
    }
    None
}

/// Holds a prompt whose input was to be completed. Where it was not, since no name begins with it, this is told.
fn hold_completed(session: &mut Session, prompt: Prompt, completes: bool)
    ensures state { state_of session.new.state ≡ prompts.told completes (state_of (prompting prompt session.old).state) }
    ensures rest { session.new ≡ record session.old { state = session.new.state } }
{
    hold_prompt(session, prompt);
    if !completes {
        set_echo(session, Message::Says(Notice::NoMatch));
    }
}

/// The input of a prompt is completed, and the session holds the prompt.
fn complete<T: Marked + Drop>(
    buffers: &Buffers<T>,
    judge: &mut Judge,
    directory: &Directory,
    session: &mut Session,
    prompt: Prompt,
)
    requires judged { AreJudged directory.now (rules_kept buffers.now) judge.old }
    requires still { session.old ≡ unsearched session.old }
    ensures judged { AreJudged directory.now (rules_kept buffers.now) judge.new }
    ensures state { state_of session.new.state ≡ state_completed directory.now buffers.now prompt session.old }
    ensures rest { session.new ≡ record session.old { state = session.new.state } }
{
    let mut prompt = prompt;
    let completion = completion_for(buffers, judge, directory, &session.user, &prompt);
    let completes = prompt.complete(completion);
    hold_completed(session, prompt, completes);
}

/// What the name of a command comes to, whose prompt was taken out of the session.
fn step_name(session: &mut Session, prompt: Prompt, before: &mut ModeBefore) -> ByteStep
    ensures { IsNamedStep session.old session.new prompt before.new (find_command prompt.input) result }
{
    let argument = session.state.keyboard.argument();
    let Some(command) = command_named(prompt.input()) else {
        fail(session, Message::Says(Notice::NoSuchCommand));
        return ByteStep::Kept;
    };
    rest(session);
    *before = ModeBefore::Prompt(prompt);
    step_command(session, command, argument)
}

/// What an answer comes to, whose prompt was taken out of the session.
fn step_answer(session: &mut Session, prompt: Prompt, before: &mut ModeBefore) -> ByteStep
    ensures first { IsFirst prompt.question prompt.first }
    ensures step { IsAnswerStep session.old session.new prompt before.new result }
{
    prove!(prompt.first().len() <= TYPED_LIMIT);
    match prompt.question() {
        Question::RunWhich => step_name(session, prompt, before),
        Question::ReplaceWhat => {
            hold_prompt(session, Prompt::second(prompt.input()));
            ByteStep::Kept
        }
        Question::ReplaceWith => {
            rest(session);
            *before = ModeBefore::Prompt(prompt);
            ByteStep::Acts(ByteAct::StartReplacing)
        }
        _ => {
            let argument = session.state.keyboard.argument();
            rest(session);
            *before = ModeBefore::Prompt(prompt);
            ByteStep::Acts(ByteAct::Answer(argument))
        }
    }
}

/// What a byte comes to in a session that is at a prompt, and does not search.
fn step_prompt<T: Marked + Drop>(
    buffers: &Buffers<T>,
    judge: &mut Judge,
    directory: &Directory,
    session: &mut Session,
    byte: u8,
    before: &mut ModeBefore,
) -> ByteStep
    requires judged { AreJudged directory.now (rules_kept buffers.now) judge.old }
    requires still { session.old ≡ unsearched session.old }
    requires alone { IsAlone session.old.state.player }
    requires asked { is_some session.old.state.prompt ≡ true }
    ensures step { IsByteStep directory.now buffers.now session.old session.new byte before.new result }
    ensures judged { AreJudged directory.now (rules_kept buffers.now) judge.new }
{
    let Some(prompt) = take_prompt(session) else {
        unreachable!();
    };
    let mut prompt = prompt;
    match prompt.feed(byte) {
        Step::GoesOn => {
            hold_prompt(session, prompt);
            ByteStep::Kept
        }
        Step::Completes => {
            complete(buffers, judge, directory, session, prompt);
            ByteStep::Kept
        }
        Step::Quit => {
            fail(session, Message::Says(Notice::Quitting));
            ByteStep::Kept
        }
        Step::Unbound => {
            hold_prompt(session, prompt);
            tell_unbound(session);
            ByteStep::Kept
        }
        Step::Answered => step_answer(session, prompt, before),
    }
}

/// What a byte comes to in a session that does not search. Where it is a key, nothing of a prompt's size is moved.
fn step_still<T: Marked + Drop>(
    buffers: &Buffers<T>,
    judge: &mut Judge,
    directory: &Directory,
    session: &mut Session,
    byte: u8,
    before: &mut ModeBefore,
) -> ByteStep
    requires judged { AreJudged directory.now (rules_kept buffers.now) judge.old }
    requires still { session.old ≡ unsearched session.old }
    requires alone { IsAlone session.old.state.player }
    requires plain { before.old ≡ Plain }
    ensures step { IsByteStep directory.now buffers.now session.old session.new byte before.new result }
    ensures judged { AreJudged directory.now (rules_kept buffers.now) judge.new }
{
    match &session.state.prompt {
        None => step_key(session, byte),
        Some(_) => step_prompt(buffers, judge, directory, session, byte, before),
    }
}

/// Where a search is, whatever it is for.
#[derive(Clone, Copy)]
pub struct SearchPlace {
    /// The buffer that it is in.
    pub name: Name,
    /// Where it began.
    pub origin: usize,
    /// Where it looks from.
    pub anchor: usize,
}

/// A search at a place.
fn search_for(place: SearchPlace, aim: Aim) -> Search
    ensures { result ≡ search_for place aim }
{
    Search {
        name: place.name,
        origin: place.origin,
        anchor: place.anchor,
        aim,
    }
}

/// Holds a search that goes on, and empties the echo line.
fn hold_on(session: &mut Session, place: SearchPlace, aim: Aim)
    ensures { session.new ≡ searching (search_for place aim) (told (Says Silent) session.old) }
{
    set_echo(session, Message::Says(Notice::Silent));
    hold_search(session, search_for(place, aim));
}

/// What a byte comes to that is none of a search's own. The search, which was taken out of the session, is over, and the byte is a key. Where
/// memory is refused to what it asks for, the search goes on.
fn step_foreign(
    session: &mut Session,
    place: SearchPlace,
    sought: IncrementalSearch,
    byte: u8,
    before: &mut ModeBefore,
) -> ByteStep
    requires still { session.old ≡ unsearched session.old }
    requires alone { IsAlone session.old.state.player }
    requires ascii { is_character_byte session.old.state.keyboard.keys byte ≡ false }
    requires leaves { read_byte session.old.state.pattern sought byte ≡ (sought, Leaves) }
    ensures { IsSearchStep (search_for place (Find sought)) session.old session.new byte before.new result }
{
    let last = SearchString::of(session.state.pattern.as_slice());
    leave_search(session, &sought);
    *before = ModeBefore::Search(search_for(place, Aim::Find(sought)), last);
    step_key(session, byte)
}

/// Holds a search that goes on, and tells that the bytes that were typed are no character.
fn hold_unbound(session: &mut Session, search: Search)
    ensures { session.new ≡ unbound (searching search session.old) }
{
    hold_search(session, search);
    tell_unbound(session);
}

/// What a byte of a character past ASCII comes to in an incremental search, which was taken out of the session: the character is put behind
/// what is looked for with its last byte. What is half read of it is the keyboard's, since it goes on as a key where the search is over.
fn step_character(
    session: &mut Session,
    place: SearchPlace,
    sought: IncrementalSearch,
    byte: u8,
) -> ByteStep
    requires still { session.old ≡ unsearched session.old }
    requires alone { IsAlone session.old.state.player }
    requires past { is_character_byte session.old.state.keyboard.keys byte ≡ true }
    ensures { (before : ModeBefore) → IsSearchStep (search_for place (Find sought)) session.old session.new byte before result }
{
    let mut keyboard = session.state.keyboard;
    let sequence = keyboard.feed_character(byte);
    hold_keyboard(session, keyboard);
    match sequence {
        Sequence::Begun => {
            hold_on(session, place, Aim::Find(sought));
            ByteStep::Kept
        }
        Sequence::Whole(c) => {
            let mut sought = sought;
            let step = sought.put(c);
            hold_on(session, place, Aim::Find(sought));
            ByteStep::Acts(ByteAct::Seek(step))
        }
        Sequence::Broken => {
            hold_unbound(session, search_for(place, Aim::Find(sought)));
            ByteStep::Kept
        }
    }
}

/// What a byte comes to in an incremental search, which was taken out of the session.
fn step_find(
    session: &mut Session,
    place: SearchPlace,
    sought: IncrementalSearch,
    byte: u8,
    before: &mut ModeBefore,
) -> ByteStep
    requires still { session.old ≡ unsearched session.old }
    requires alone { IsAlone session.old.state.player }
    ensures { IsSearchStep (search_for place (Find sought)) session.old session.new byte before.new result }
{
    if session.state.keyboard.is_character_byte(byte) {
        return step_character(session, place, sought, byte);
    }
    let mut sought = sought;
    match sought.feed(session.state.pattern.as_slice(), byte) {
        SearchStep::Ends => {
            leave_search(session, &sought);
            ByteStep::Kept
        }
        SearchStep::Leaves => step_foreign(session, place, sought, byte, before),
        SearchStep::Quits => {
            hold_on(session, place, Aim::Find(sought));
            ByteStep::Acts(ByteAct::QuitSearch)
        }
        step => {
            hold_on(session, place, Aim::Find(sought));
            ByteStep::Acts(ByteAct::Seek(step))
        }
    }
}

/// What a query-replace is asked for.
#[derive(Clone, Copy)]
pub enum ReplaceKey {
    /// The match is replaced. `true`: it is the last one.
    Replaces(bool),
    /// The match stays as it is.
    Skips,
    /// This match is replaced, and each further one.
    ReplacesAll,
    /// The query-replace ends.
    Ends,
    /// It is quit.
    Quits,
    /// None of these: the match is asked for again.
    Other,
}

/// What a byte asks of a query-replace.
fn replace_key(byte: u8) -> ReplaceKey
    ensures { result ≡ replace_key byte }
{
    if byte == b'y' || byte == b' ' {
        return ReplaceKey::Replaces(false);
    }
    if byte == b'.' {
        return ReplaceKey::Replaces(true);
    }
    if byte == b'n' || byte == DELETE {
        return ReplaceKey::Skips;
    }
    if byte == b'!' {
        return ReplaceKey::ReplacesAll;
    }
    if byte == b'q' || byte == RETURN {
        return ReplaceKey::Ends;
    }
    if byte == QUIT {
        return ReplaceKey::Quits;
    }
    ReplaceKey::Other
}

/// The query-replace, which was taken out of the session, is over, and it is told how often it did.
fn end_replacing(session: &mut Session, count: usize)
    ensures { session.new ≡ told (Replaced count) (unprompted session.old) }
{
    let _prompt = take_prompt(session);
    set_echo(session, Message::Replaced(count));
}

/// All further matches are to be replaced.
fn replace_all(session: &mut Session)
    requires { are_played session.old.state.player.todo ≡ true }
    ensures { session.new ≡ playing_as (replacing_all session.old.state.player) session.old }
{
    session.state.player.replace_all();
}

/// What a byte comes to in a query-replace, which was taken out of the session.
fn step_replace(
    session: &mut Session,
    place: SearchPlace,
    replacing: Replacing,
    byte: u8,
    before: &mut ModeBefore,
) -> ByteStep
    requires still { session.old ≡ unsearched session.old }
    requires alone { IsAlone session.old.state.player }
    ensures { IsSearchStep (search_for place (Replace replacing)) session.old session.new byte before.new result }
{
    prove!(!replacing.pattern().is_empty());
    match replace_key(byte) {
        ReplaceKey::Replaces(last) => {
            hold_on(session, place, Aim::Replace(replacing));
            *before = ModeBefore::Held;
            ByteStep::Acts(ByteAct::Replace(last))
        }
        ReplaceKey::Skips => {
            hold_on(session, place, Aim::Replace(replacing));
            ByteStep::Acts(ByteAct::Skip)
        }
        ReplaceKey::ReplacesAll => {
            hold_on(session, place, Aim::Replace(replacing));
            replace_all(session);
            ByteStep::Kept
        }
        ReplaceKey::Ends => {
            end_replacing(session, replacing.count());
            ByteStep::Kept
        }
        ReplaceKey::Quits => {
            fail(session, Message::Says(Notice::Quitting));
            ByteStep::Kept
        }
        ReplaceKey::Other => {
            hold_on(session, place, Aim::Replace(replacing));
            ByteStep::Kept
        }
    }
}

/// What a byte comes to in a search, which was taken out of the session.
fn step_taken(session: &mut Session, search: Search, byte: u8, before: &mut ModeBefore) -> ByteStep
    requires still { session.old ≡ unsearched session.old }
    requires alone { IsAlone session.old.state.player }
    ensures { IsSearchStep search session.old session.new byte before.new result }
{
    let Search {
        name,
        origin,
        anchor,
        aim,
    } = search;
    let place = SearchPlace {
        name,
        origin,
        anchor,
    };
    match aim {
        Aim::Find(sought) => step_find(session, place, sought, byte, before),
        Aim::Replace(replacing) => { step_replace(session, place, replacing, byte, before) }
    }
}

/// What a byte comes to in a session that searches.
fn step_search(session: &mut Session, byte: u8, before: &mut ModeBefore) -> ByteStep
    requires searches { is_some session.old.state.search ≡ true }
    requires alone { IsAlone session.old.state.player }
    ensures { (directory : Directory) (ks : List MarkedBuffer) → IsByteStep directory ks session.old session.new byte before.new result }
{
    let Some(search) = take_search(session) else {
        unreachable!();
    };
    step_taken(session, search, byte, before)
}

/// What a byte comes to in its session. In one that does not search nothing of a search's size is moved. An act's `before` stands in its place
/// then, where nothing was.
pub fn step_byte<T: Marked + Drop>(
    buffers: &Buffers<T>,
    judge: &mut Judge,
    directory: &Directory,
    session: &mut Session,
    byte: u8,
    before: &mut ModeBefore,
) -> ByteStep
    requires judged { AreJudged directory.now (rules_kept buffers.now) judge.old }
    requires alone { IsAlone session.old.state.player }
    requires plain { before.old ≡ Plain }
    ensures step { IsByteStep directory.now buffers.now session.old session.new byte before.new result }
    ensures judged { AreJudged directory.now (rules_kept buffers.now) judge.new }
{
    match &session.state.search {
        None => step_still(buffers, judge, directory, session, byte, before),
        Some(_) => step_search(session, byte, before),
    }
}
