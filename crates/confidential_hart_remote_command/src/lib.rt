// SPDX-FileCopyrightText: 2023 IBM Corporation
// SPDX-FileContributor: Wojciech Ozga <woz@zurich.ibm.com>, IBM Research - Zurich
// SPDX-License-Identifier: Apache-2.0
// Changed: ported to Rattle from core/control_data/confidential_hart_remote_command.rs: a command is six numbers.
#![tactic(auto)]

ghost use Rattle.std.specs.Prelude.{◌≡◌, length};
ghost use Rattle.table_rows.specs.Choice.{pick};
ghost use Rattle.confidential_hart_remote_command.specs.Command.{well_formed, same, from_words, to_words, command_words};
ghost use Rattle.confidential_hart_remote_command.specs.Selection.{selects};

// The words of a command.
pub const COMMAND_WORDS: usize = 6;

// The kinds of commands. A kind is a number and no enum, since any number may stand in a table and be asked for; `is_well_formed` judges it.
pub const IPI: u64 = 1;

pub const REMOTE_FENCE_I: u64 = 2;

pub const REMOTE_SFENCE_VMA: u64 = 3;

pub const REMOTE_SFENCE_VMA_ASID: u64 = 4;

pub const REMOTE_HFENCE_GVMA_VMID: u64 = 5;

pub const SHUTDOWN_REQUEST: u64 = 6;

// The harts that one mask can name, and the base that stands for all harts.
pub const XLEN: u64 = 64;

pub const ALL_HARTS: u64 = 0xffff_ffff_ffff_ffff;

// A command that is to be done by confidential harts: what to do, for which harts, and on what.
#[derive(Clone, Copy, PartialEq, Eq)]
pub struct ConfidentialHartRemoteCommand {
    pub kind: u64,
    pub mask: u64,
    pub base: u64,
    pub start: u64,
    pub size: u64,
    pub tag: u64,
}

impl ConfidentialHartRemoteCommand {
    // Whether there is such a kind, and each number that it does not use is 0. The unused numbers are joined by three independent choices
    // and tested once, which is faster than a branch by kind.
    pub fn is_well_formed(self) -> bool
        ensures { result ≡ well_formed self }
    {
        let tail = self.start | self.size | self.tag;
        let unused = only(self.kind == SHUTDOWN_REQUEST, self.mask | self.base | tail)
            | only(self.kind < REMOTE_SFENCE_VMA, tail)
            | only(self.kind == REMOTE_SFENCE_VMA, self.tag);
        (IPI <= self.kind) & (self.kind <= SHUTDOWN_REQUEST) & (unused == 0)
    }

    // Whether the command is for a hart.
    pub fn is_hart_selected(self, hart: u64) -> bool
        ensures { result ≡ selects self hart }
    {
        if self.kind == SHUTDOWN_REQUEST {
            return true;
        }
        if self.base == ALL_HARTS {
            return true;
        }
        if hart < self.base {
            return false;
        }
        let index = hart - self.base;
        if XLEN <= index {
            return false;
        }
        bits::is_bit_enabled(self.mask, index)
    }

    // The command that six words hold. The words are a part of a lent table and no array, so this and the next are no `From`: a caller would
    // first have to make an array of them.
    pub fn from_words(words: &[u64]) -> ConfidentialHartRemoteCommand
        requires { length words.now ≡ command_words }
        ensures { result ≡ from_words words.now }
    {
        let &[kind, mask, base, start, size, tag] = words else {
            unreachable!()
        };
        ConfidentialHartRemoteCommand {
            kind,
            mask,
            base,
            start,
            size,
            tag,
        }
    }

    // Writes the command to six words.
    pub fn to_words(self, words: &mut [u64])
        requires { length words.old ≡ command_words }
        ensures { words.new ≡ to_words self }
    {
        words.copy_from_slice(&[
            self.kind, self.mask, self.base, self.start, self.size, self.tag,
        ]);
    }
}

// `x` if the test holds, else 0.
fn only(test: bool, x: u64) -> u64
    ensures { result ≡ pick test x 0 }
{
    if test { x } else { 0 }
}
