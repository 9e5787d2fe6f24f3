//! What is written for a machine is read back as that machine, and the texts of its logs distinguish them. No
//! program is mentioned here: the laws are about the definitions that readers and writers of files and logs
//! meet. `row_trials` tries files and logs both ways.
//!
//! Promises: The file that is written for a spelled machine is accepted and spells that machine; so is the
//! file of every generated machine. Version 2 in place of version 1 spells the same machine. A spelled
//! machine's names are different, so two logs that fit it and have one text are one log. By the clauses of
//! `machines_read_back`, `values_spell_again`, `generated_machines_read_back`, `versions_spell_alike`,
//! `machines_are_named`, `log_texts_are_injective`.
//!
//! Begin reading in `src/lib.rt`, `specs/Laws.antt`.
#![tactic(auto)]

ghost use Rattle.machine_file.specs.Spelling.{AllReadBack};
ghost use Rattle.file_read_back.specs.Laws.{AllGenerated, AllNamed, AllSpellAgain, TextsAreInjective, AllVersionsAlike};

/// The value that is written for the machine of a value without a broken rule breaks none, and
/// spells that machine.
pub fn values_spell_again()
    ensures { AllSpellAgain }
{}

/// A value without a broken rule breaks none as one of version 2, and spells the same machine.
pub fn versions_spell_alike()
    ensures { AllVersionsAlike }
{}

/// The bytes that are written for a machine that some file spells are accepted, and spell it.
pub fn machines_read_back()
    ensures { AllReadBack }
{}

/// The names of a machine that some file spells are spelled as names and different, as those who read its
/// logs ask.
pub fn machines_are_named()
    ensures { AllNamed }
{}

/// Two logs that fit a machine which some file spells and have the same text are the same log.
pub fn log_texts_are_injective()
    ensures { TextsAreInjective }
{}

/// The bytes that are written for a generated machine are accepted, and spell it.
pub fn generated_machines_read_back()
    ensures { AllGenerated }
{}
