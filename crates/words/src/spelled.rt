//! A command together with its words.

ghost use Rattle.std.specs.Prelude.{◌≡◌, ◌⊎◌, IfOk, IsErrOf};
ghost use Rattle.words.specs.Spelling.{IsInRange, IsOpening, Spells, spelling};
ghost use Rattle.words.specs.declared.command.Command.{Command};

use crate::command::Command;
use crate::read::{WordsFault, read_command};
use crate::reply::Memory;
use crate::write::write_command;
use std::alloc::Global;
use std::marker::Model;

/// A command with its one spelling. Contracts see it as the command.
#[derive(Drop)]
pub struct SpelledCommand {
    command: Command,
    bytes: Vec<u8>,
}

impl Model for SpelledCommand {
    ghost use Rattle.words.specs.Spelling.{Spells};
    ghost use Rattle.words.specs.declared.command.Command.{Command};

    ghost Value = { Command };

    ghost view = { λ a. a.command };

    ghost invariant = { λ a. Spells a.command a.bytes.items };
}

impl SpelledCommand {
    /// Returns the command whose one spelling the bytes are, with a copy of them. Fails with `BadCommand` where they
    /// are no command's spelling, and with `Memory` only where memory was refused for the order lines of an `open`, or
    /// for the copy of a command's bytes.
    pub fn read(alloc: Global, bytes: &[u8]) -> Result<SpelledCommand, WordsFault>
        ensures found { IfOk result (λ spelled. Spells spelled bytes.now) }
        ensures bad { IsErrOf result WordsFault.BadCommand → (c : Command) → Spells c bytes.now → ⊥ }
        ensures memory { IsErrOf result WordsFault.Memory → ((c : Command) × Spells c bytes.now) ⊎ IsOpening bytes.now }
    {
        let command = match read_command(alloc, bytes) {
            Ok(command) => command,
            Err(fault) => return Err(fault),
        };
        match Vec::from_slice(alloc, bytes) {
            Ok(bytes) => Ok(SpelledCommand { command, bytes }),
            Err(_) => Err(WordsFault::Memory),
        }
    }

    /// Returns the command together with its spelling.
    pub fn of(alloc: Global, command: Command) -> Result<SpelledCommand, Memory>
        ensures { IfOk result (λ spelled. spelled ≡ command) }
    {
        let mut bytes = Vec::new(alloc);
        write_command(&command, &mut bytes)?;
        Ok(SpelledCommand { command, bytes })
    }

    /// Returns the command, without its words.
    pub fn command(&self) -> &Command
        ensures value { result.now ≡ self.now }
        ensures range { IsInRange self.now }
    {
        &self.command
    }

    /// Returns the words of the command.
    pub fn words(&self) -> &[u8]
        ensures value { result.now ≡ spelling self.now }
        ensures range { IsInRange self.now }
    {
        &self.bytes
    }
}
