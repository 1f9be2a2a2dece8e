// Commands by name: what M-x knows.
ghost use Rattle.std.specs.Prelude.{◌≡◌, ◌≤◌, true, find, fold, length, IfSome};
ghost use Rattle.std.specs.Option.{option_map};
ghost use Rattle.mgs_model.specs.Names.{same_name};
ghost use Rattle.mgs_model.specs.Commands.{find_command, command_names};
ghost use Rattle.mgs_model.specs.Completion.{completion};
ghost use Rattle.mgs_maps.specs.declared.table.Binding.{Binding};
ghost use Rattle.mgs_maps.specs.Held.{is_bound};
ghost use Rattle.mgs_maps.specs.Table.{row_of, rows_of, named_row, narrowed_row};

use crate::table::{Binding, bindings, keyless};
use mgs_mini::narrowed;
use mgs_model::{Command, is_typed};

// The command of a name in a table.
fn command_in(bindings: &[Binding], name: &[char]) -> Option<Command>
    ensures { result ≡ option_map (λ (b : Binding). b.command) (find (λ (b : Binding). same_name name.now b.name.now) bindings.now) }
{
    bindings
        .iter()
        .find(|binding| is_typed(name, binding.name.as_bytes()))
        .map(|binding| binding.command)
}

// The same, told of its rows.
fn named_in(bindings: &[Binding], name: &[char]) -> Option<Command>
    ensures { result ≡ named_row name.now (rows_of bindings.now) }
{
    command_in(bindings, name)
}

#[tactic(auto, using(crate::proofs::Named::no_name, crate::proofs::Named::in_tables))]
fn find_command(name: &[char]) -> Option<Command>
    ensures { result ≡ find_command name.now }
{
    if name.is_empty() {
        return None;
    }
    named_in(bindings(), name).or(named_in(keyless(), name))
}

/// The command of a name that was typed: one of the table, or one that no word of keys runs. `None`: no command has it.
#[tactic(auto, using(crate::proofs::Named::found_is_bound))]
pub fn command_named(name: &[char]) -> Option<Command>
    ensures value { result ≡ find_command name.now }
    ensures bound { IfSome result (λ c. is_bound c ≡ true) }
{
    find_command(name)
}

// What the names so far have in common that begin with what was typed, with the name of a row.
fn narrowed_by(
    input: &[char],
    found: Option<&'static [u8]>,
    binding: &Binding,
) -> Option<&'static [u8]>
    ensures { option_map (λ t. t.now) result ≡ narrowed_row input.now (option_map (λ t. t.now) found.entry) (row_of binding.now) }
{
    if binding.name.is_empty() {
        return found;
    }
    narrowed(input, found, binding.name.as_bytes())
}

// The same with the names of a table.
fn narrowed_in(
    input: &[char],
    mut found: Option<&'static [u8]>,
    bindings: &[Binding],
) -> Option<&'static [u8]>
    ensures { option_map (λ t. t.now) result ≡ fold (narrowed_row input.now) (option_map (λ t. t.now) found.entry) (rows_of bindings.now) }
{
    for binding in bindings {
        found = narrowed_by(input, found, binding);
    }
    found
}

#[tactic(auto, using(crate::proofs::Named::by_rows))]
fn completed(input: &[char]) -> Option<&'static [u8]>
    ensures { option_map (λ t. t.now) result ≡ completion command_names input.now }
{
    narrowed_in(input, narrowed_in(input, None, bindings()), keyless())
}

/// What a name is completed to that was typed so far: the longest text with which all names of commands begin that begin with
/// it, at most 120 characters. `None`: no name does.
pub fn name_completion(input: &[char]) -> Option<&'static [u8]>
    ensures value { option_map (λ t. t.now) result ≡ completion command_names input.now }
    ensures within { IfSome (option_map (λ t. t.now) result) (λ text. length text ≤ 120) }
{
    completed(input)
}
