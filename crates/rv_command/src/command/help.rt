//! The help of the program as a whole: its commands, by what one wants, the words of its reports, and the names of its faults.

use rv_engines::terms::TERMS;
use std::fmt;

/// What `help words` writes: for each word of the reports what it means.
#[derive(Clone, Copy)]
pub struct Words;

impl fmt::Display for Words {
    fn fmt<W: fmt::Write>(&self, f: &mut fmt::Formatter<W>) -> fmt::Result {
        f.write_str(
            "The words of reports and pages. (The command of this name: rvcollide words --help.)\n",
        )?;
        for term in &TERMS {
            write!(f, "\n{}:\n", term.word)?;
            for line in term.meaning {
                f.write_str("  ")?;
                f.write_str(*line)?;
                f.write_str("\n")?;
            }
        }
        Ok(())
    }
}

/// What `--help` writes. Each command of the table stands in it once.
pub const OVERVIEW: &str = "\
Hunts data races in RV32IMA programs.

Usage: rvcollide <COMMAND>

Find races:
  hunt     Find races in an image: nothing but the image is needed
  run      Make many runs from a seed and print the table of the races they found
  threads  Make one run with a real thread for each hart
  merge    Add up the tables of a hunt that was made in pieces
  show     Report the races of such a table, with a page and schedules

Look at a run that was saved:
  explain  Report its races with names, instructions and values, or draw one
  replay   Make the run again and print how its pauses ended and the final state
  debug    Go to any place of the run, forwards and backwards
  exhibit  Turn a report into a list of steps that any emulator can check
  gdb      Serve the run to GDB, which shows its source lines and variables

Make and read programs:
  asm      Assemble a source into an image
  list     Disassemble an image
  words    Run instruction words from the standard input

Get help:
  help     Print this help, a command's (help run), what faults mean (help faults) or words (help words)

Options:
      --color <WHEN>  Colour of classes, errors and warnings, of any command: auto, always or never
  -h, --help          Print help
  -V, --version       Print version

To find and read a first race:
  rvcollide hunt guest.elf

The exit status is 0 if all went well, 1 if an input was refused, 2 if the command line was, 3 if a file
or stream could not be read or written, 4 if there was not enough memory, 5 if a hunt with --check,
--check-all, --check-ends or --expect, or a merge with --expect, or show with --check, --check-all or
--expect, found what these ask for, and 6 if a hunt with --check found no race, but a warning says that
this means nothing.
";

/// What `help faults` writes: for each fault's name the sentence that `sentence` gives.
pub const FAULTS: &str = "\
A command that refuses its input prints one line, such as
  rvcollide: asm line 3 Register
and exits with status 1. Lines are counted from 1, steps and entries from 0.

words line N: the line is malformed or missing

words step N NAME:
  NoHart: there is no such hart
  NotRunning: the hart has exited or stopped

asm line N NAME:
  Word: the line is not a statement, or its operands are malformed
  Register: a register is x0 to x31 or its ABI name
  Range: a number is out of range, or a target is odd or too far away
  LabelTwice: the label is already defined on an earlier line
  LabelUnknown: the source defines no such label
  Directive: there is no such directive, or it is not allowed in this section
  TooLarge: the section, or the label names, would exceed the limit
  Empty: the source has nothing in .text

load NAME, of an image:
  Truncated: the file ends inside its headers or a segment: was it cut off?
  NotElf: this is not an ELF file
  NotElf32Little: the file is ELF, but not 32-bit little-endian
  NotExecutable: the file is not an executable at fixed addresses: link it without -pie
  NotRiscV: the file is for another processor
  NotStatic: the file needs a dynamic linker: link it with -static
  HeaderSize: a header in the file does not have the size that ELF prescribes
  TooManySegments: the file has more than 64 program headers
  FileLongerThanMemory: a segment has more bytes in the file than in memory
  PastEnd: a segment runs past the last address
  Overlap: two segments overlap, or one overlaps the stacks at c0000000 to c00fffff
  TooLarge: the segments add up to more than 16777216 bytes
  BadEntry: the entry point is misaligned or not in an executable segment
  BadSymbols: the symbol table is malformed or too large: rebuild the file, or strip it

schedule line N NAME:
  Header: the first line is not that of a schedule: is this the right file?
  PlanLine: the plan has the form: harts N steps N arms N pause N slots N
  PlanRange: a number in the plan is out of range
  Entry: the line is neither an entry nor the end, or a number is out of range
  TooMany: there are more entries than the plan's steps plus four times its arms
  NoEnd: the line 'end' is missing: was the schedule cut off?
  AfterEnd: there is something after the line 'end'
  TooLong: the line is longer than 64 bytes

replay entry N NAME, of an entry that does not fit the run:
  NoHart: the plan has no such hart
  NotRunning: the hart has exited or stopped: is the schedule from another image?
  Paused: the hart is paused: is the schedule from another image?
  StepsSpent: the plan's steps are used up
  NotPaused: the hart is not paused: is the schedule from another image?
  ArmsSpent: the plan's arms are used up
  Misaligned: the address is not a multiple of 4
  AlreadyArmed: the address is already armed
  ArmedFull: too many addresses are armed at once
  NotArmed: the address is not armed
  Differs: the run does something else here: is the schedule from another image?

exhibit NAME:
  NoEnding: the schedule has no ending with this number
  NotReport: the ending is quiet: nothing touched the watched bytes during the pause
  TextChanged: the paused instruction was overwritten before the second access

explain NoRace of N: there is no race with this number

skip TEXT: an address is eight hexadecimal digits

name TEXT: the image has no symbol with this name

table line N NAME, of a table of hunt or run:
  Shape: the line is not the row of a race: is this a table of hunt?
  Range: a number or an address of the row is out of range
  Twice: the race has a row already: use merge to add tables
  End: there are not as many rows as the first line says, or no last line says what they are of: was it cut off?
  Image: the table is of another image than the one that is given, or than the first table
  Version: the table was made by another version of rvcollide than this one, or than the first table
  Options: the runs of the table had another seed or other options than those of the first one
  Overlap: the table has runs that another table has, or that come before the last of another: leave one out
  Gap: runs are missing before those of the table: add their table, or allow it by --gaps
  NotMet: the run of the row makes no such report: was the table edited?

lines line N NAME, of a file of --lines:
  Shape: a line is an address of eight hexadecimal digits, and for each frame a function and FILE:LINE, with tabs between
  Order: the address is not greater than that of the line before: did rvcollide-lines write the file?

ignore line N NAME, of a list of --ignore, or of --expect:
  Shape: a line is two sides, each an address of eight hexadecimal digits, a symbol's name or *; on NAME may follow
  Unknown: the image has no symbol with this name

ignore aim NAME, of --aim:
  Unknown: the image has no symbol with this name

campaign NAME, of run and hunt:
  TooLarge: the runs could have more than 16777216 entries in total: use fewer runs, steps or arms
  NoThread: a thread could not be started: try fewer workers

run NAME, of threads:
  NoThread: a thread could not be started: try fewer harts
  Stray: a thread recorded something that is not its hart's part of the schedule

input TooLong: the input is larger than 67108864 bytes

Other lines have another status. With status 3:

read: cannot read the input: does it exist, and is it a file?

write: cannot write the output: is there space, and does the folder exist?

With status 4:

memory: there was not enough memory

The session of debug goes on after a fault. It answers fault N NAME:
  0 Command: the line is not a command, or a number in it is out of range
  1 NoPlace: the schedule has fewer entries
  2 NoHart: the machine has fewer harts
  3 NoBytes: there is no memory, or the address of a listing is not a multiple of 4
  4 NotFound: no entry from here on touches the byte
  5 NoMemory: there was not enough memory for the answer
";
