//! The words of a command, as they are kept.

ghost use Rattle.std.specs.Prelude.{◌≡◌, IfErr, IfOk};
ghost use Rattle.book.specs.inner.KeptWords.{Spelled, Spelled-prop};
ghost use Rattle.words.specs.Spelling.{IsInRange, Spells, spelling};
ghost use Rattle.words.specs.declared.command.Command.{Command};
ghost use Rattle.words.specs.declared.read.WordsFault.TheVariants as WordsFault;

use std::alloc::Global;
use std::marker::Model;
use words::{Command, Memory, SpelledCommand, WordsFault, read_command};

/// The one spelling of a command. Contracts see it as the command.
#[derive(Drop)]
pub struct KeptWords {
    bytes: Vec<u8>,
    ghost spelled: { Spelled bytes.items } by { Spelled-prop bytes.items },
}

impl Model for KeptWords {
    ghost use Rattle.words.specs.declared.command.Command.{Command};

    ghost Value = { Command };

    ghost view = { λ w. w.spelled.0 };
}

impl KeptWords {
    ghost use Rattle.ledger.specs.Answers.{same_command};

    /// Returns the words of the command.
    pub fn of(alloc: Global, command: &SpelledCommand) -> Result<KeptWords, Memory>
        ensures { IfOk result (λ words. words ≡ command.now) }
    {
        let bytes = Vec::from_slice(alloc, command.words())?;
        Ok(KeptWords { bytes })
    }

    /// Returns these bytes as the words of a command. Fails with `BadCommand` where they are no command's spelling.
    pub fn read(alloc: Global, bytes: &[u8]) -> Result<KeptWords, WordsFault>
        ensures spelled { IfOk result (λ words. Spells words bytes.now) }
        ensures bad { IfErr result (λ fault. fault ≡ WordsFault.BadCommand → (c : Command) → Spells c bytes.now → ⊥) }
    {
        read_command(alloc, bytes)?;
        match Vec::from_slice(alloc, bytes) {
            Ok(bytes) => Ok(KeptWords { bytes }),
            Err(_) => Err(WordsFault::Memory),
        }
    }

    /// Returns the bytes of the words.
    pub fn as_bytes(&self) -> &[u8]
        ensures value { result.now ≡ spelling self.now }
        ensures range { IsInRange self.now }
    {
        &self.bytes
    }

    /// Returns the command.
    pub fn command(&self, alloc: Global) -> Result<Command, Memory>
        ensures { IfOk result (λ command. command ≡ self.now) }
    {
        match read_command(alloc, self.as_bytes()) {
            Ok(command) => Ok(command),
            Err(WordsFault::Memory) => Err(Memory),
            Err(WordsFault::BadCommand) => unreachable!(),
        }
    }

    /// Returns whether these are the words of the command.
    pub fn is_same(&self, command: &SpelledCommand) -> bool
        ensures { result ≡ same_command self.now command.now }
    {
        self.as_bytes() == command.words()
    }
}
