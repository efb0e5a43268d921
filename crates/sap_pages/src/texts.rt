//! The texts that tell how the program is called.

// The commands with a line each, the statuses, and where the pages stand.
pub(crate) const COMMANDS_TEXT: &str = "\
sapic translates processes, protocols in the SAPIC calculus, into multiset
rewrite rules, and their runs into one another.

usage: sapic COMMAND ARGUMENTS

  compile FILE            the theory of FILE: rules, restrictions, lemmas
  compile-inline FILE     the same without restrictions: lemmas carry them
  compile-short FILE      the theory of compile with fewer rules
  why FILE                accepted, or why not, where, and what to change
  to-rules FILE RUN       the run of the rules opposite to a run of the process
  to-process FILE RUN     the run of the process opposite to a run of the rules
  fill FILE RUN           the run that a short run stands for
  judge FILE RUN          whether restrictions and lemmas are true on a run
  check-rules THEORY RUN  the same of a theory, on a run of its rules
  tell FILE RUN           what a run does, line by line, and what judge says
  chart FILE RUN          the same run as a picture, SVG
  to-json RUN             a run as JSON
  from-json RUN           the run that JSON is
  sample N                sizes of a run of N sessions, and of its conversions
  help                    this page; --help does the same
  help COMMAND            what COMMAND reads, writes and refuses, an example
  --version               the version, and the kit that it was proved with

The text goes to standard output, and the status says how it went:

  0  the whole text was written
  1  the file, or the theory, is refused
  2  the run, or the JSON of one, is refused
  3  the words are none of these
  4  a file couldn't be read
  5  an output failed
  6  memory was wanting

From 1 on a line on standard error says so. The pages stand in docs/, and
docs/README.md says what each of them answers.
";

// The program's name and version, and the kit that it was proved with.
pub(crate) const VERSION_TEXT: &str = "\
sapic 1.0.0
proved with rattle-kit-13f logic dac8208d650f15bf
";

// The page of `compile`.
pub(crate) const COMPILE_PAGE: &str = "\
sapic compile FILE

Writes    the theory of FILE: the rules of its process, the restrictions that
          the process needs, named sapic_.., those of FILE, and its lemmas.
Reads     FILE, of at most 1048576 bytes.
Refuses   with status 1 a FILE in which anything is wrong, and says what; where,
          and what to change, says: sapic why FILE
Example   sapic compile examples/answer.spthy
Pages     docs/files.md, docs/translation.md
";

// The page of `compile-inline`.
pub(crate) const COMPILE_INLINE_PAGE: &str = "\
sapic compile-inline FILE

Writes    the theory that compile writes, without its restrictions: each lemma
          carries them all in its formula.
Reads     FILE, of at most 1048576 bytes.
Refuses   with status 1 a FILE that compile refuses.
Example   sapic compile-inline examples/answer.spthy
Pages     docs/files.md, docs/formulas.md
";

// The page of `compile-short`.
pub(crate) const COMPILE_SHORT_PAGE: &str = "\
sapic compile-short FILE

Writes    the theory that compile writes, with fewer rules: those by which
          control alone moves on are left out, and what they would add stands
          where the facts stood that they take. A run of these rules goes with
          check-rules, and not with the commands on FILE.
Reads     FILE, of at most 1048576 bytes.
Refuses   with status 1 a FILE that compile refuses.
Example   sapic compile-short examples/answer.spthy
Pages     docs/files.md, docs/translation.md
";

// The page of `why`.
pub(crate) const WHY_PAGE: &str = "\
sapic why FILE

Writes    accepted; or the line with which compile refuses FILE, where the
          cause stands, and what to change.
Reads     FILE, of at most 1048576 bytes.
Refuses   nothing: the status is 0 whether FILE is accepted or not.
Example   sapic why examples/answer.spthy
Pages     docs/files.md
";

// The page of `to-rules`.
pub(crate) const TO_RULES_PAGE: &str = "\
sapic to-rules FILE RUN

Writes    the run of the rules of FILE that is opposite to RUN: it shows the
          same, and the adversary knows the same behind it.
Reads     FILE, of at most 1048576 bytes, and RUN, a run of its process, of at
          most 16777216 bytes and 5000 steps.
Refuses   with status 1 a FILE that compile refuses; with status 2 a RUN that
          is none, or has a step that the process can't do with terms of at
          most 256 nodes.
Example   sapic to-rules examples/answer.spthy examples/runs/answer.prun
Pages     docs/runs.md, docs/conversions.md
";

// The page of `to-process`.
pub(crate) const TO_PROCESS_PAGE: &str = "\
sapic to-process FILE RUN

Writes    the run of the process of FILE that is opposite to RUN: it shows the
          same, and the adversary knows the same behind it.
Reads     FILE, of at most 1048576 bytes, and RUN, a run of its rules, of at
          most 16777216 bytes and 20001 steps.
Refuses   with status 1 a FILE that compile refuses; with status 2 a RUN that
          is none, has a step that the rules can't do with terms of at most
          256 nodes, or makes a restriction false that is named sapic_..
Example   sapic to-process examples/answer.spthy examples/runs/answer.rrun
Pages     docs/runs.md, docs/conversions.md, docs/attacks.md
";

// The page of `fill`.
pub(crate) const FILL_PAGE: &str = "\
sapic fill FILE RUN

Writes    the run that RUN, a short run, stands for, with each step by which
          the adversary makes what it gives.
Reads     FILE, of at most 1048576 bytes, and RUN, a short run of its process,
          of at most 16777216 bytes and 500 steps.
Refuses   with status 1 a FILE that compile refuses; with status 2 a RUN that
          is none, or has a step that process and adversary can't do with
          terms of at most 256 nodes.
Example   sapic fill examples/answer.spthy examples/runs/answer.srun
Pages     docs/runs.md
";

// The page of `judge`.
pub(crate) const JUDGE_PAGE: &str = "\
sapic judge FILE RUN

Writes    of each restriction of FILE, and then of each lemma, a line, whether
          its formula is true on what RUN shows: NAME: holds, NAME: fails, or
          NAME: too costly. It speaks of this run alone and looks at no mode,
          and the status is 0 whatever it says.
Reads     FILE, of at most 1048576 bytes, and RUN, a run of its process or of
          its rules, of at most 16777216 bytes.
Refuses   with status 1 a FILE that compile refuses; with status 2 a RUN that
          to-rules refuses, or, where it is one of rules, to-process.
Example   sapic judge examples/answer.spthy examples/runs/answer.prun
Pages     docs/formulas.md, docs/attacks.md
";

// The page of `check-rules`.
pub(crate) const CHECK_RULES_PAGE: &str = "\
sapic check-rules THEORY RUN

Writes    of each restriction of THEORY, and then of each lemma, a line,
          whether its formula is true on the full trace of RUN: NAME: holds,
          NAME: fails, or NAME: too costly.
Reads     THEORY, as compile writes one, and RUN, a run of its rules, each of
          at most 16777216 bytes.
Refuses   with status 1 a THEORY that is none; with status 2 a RUN that is
          none, or has a step that the rules can't do with terms of at most
          256 nodes.
Example   sapic check-rules answer-theory.spthy examples/runs/answer.rrun
          where sapic compile examples/answer.spthy wrote the theory
Pages     docs/rules.md, docs/attacks.md
";

// The page of `tell`.
pub(crate) const TELL_PAGE: &str = "\
sapic tell FILE RUN

Writes    what each step of RUN does, a line for each, with the terms that it
          sends, takes, stores and shows; and behind an empty line what judge
          writes. A run of rules is told as one of the process.
Reads     FILE, of at most 1048576 bytes, and RUN, a run of its process or of
          its rules, of at most 16777216 bytes.
Refuses   with status 1 a FILE that compile refuses; with status 2 a RUN that
          to-rules refuses, or, where it is one of rules, to-process.
Example   sapic tell examples/answer.spthy examples/runs/answer.prun
Pages     docs/telling.md
";

// The page of `chart`.
pub(crate) const CHART_PAGE: &str = "\
sapic chart FILE RUN

Writes    what tell tells of the steps as a picture, SVG: a line from top to
          bottom for the adversary and for each thread, and arrows between
          them for what is sent and taken.
Reads     FILE, of at most 1048576 bytes, and RUN, a run of its process or of
          its rules, of at most 16777216 bytes.
Refuses   with status 1 a FILE that compile refuses; with status 2 a RUN that
          to-rules refuses, or, where it is one of rules, to-process.
Example   sapic chart examples/answer.spthy examples/runs/answer.prun
Pages     docs/telling.md
";

// The page of `to-json`.
pub(crate) const TO_JSON_PAGE: &str = "\
sapic to-json RUN

Writes    RUN as JSON: an object with its kind and its steps.
Reads     RUN, a run of a process or of rules, of at most 16777216 bytes.
Refuses   with status 2 a RUN that is none. It asks for no file, so a step may
          be one that nothing can do.
Example   sapic to-json examples/runs/answer.prun
Pages     docs/runs.md
";

// The page of `from-json`.
pub(crate) const FROM_JSON_PAGE: &str = "\
sapic from-json RUN

Writes    the run that RUN is, as the other commands read it.
Reads     RUN, the JSON of a run of a process or of rules, as to-json writes
          it, of at most 16777216 bytes.
Refuses   with status 2 a RUN that is no JSON of a run.
Example   sapic from-json answer.json
          where sapic to-json examples/runs/answer.prun wrote the JSON
Pages     docs/runs.md
";

// The page of `sample`.
pub(crate) const SAMPLE_PAGE: &str = "\
sapic sample N

Writes    of a run of N sessions of a small protocol how many steps it has, how
          many the run of the rules opposite to it, how many that one converted
          back, and at how many times it shows something.
Reads     nothing; N is a number from 1 to 500, in decimal.
Refuses   nothing; with another N the words are none, which is status 3.
Example   sapic sample 20
Pages     docs/statement.md
";

// The page of `help`.
pub(crate) const HELP_PAGE: &str = "\
sapic help
sapic help COMMAND

Writes    the commands with a line each, and the statuses; or the page of
          COMMAND: what it writes, reads and refuses, and an example.
Reads     nothing.
Refuses   nothing; with another COMMAND the words are none, which is status 3.
Example   sapic help compile
Pages     docs/README.md
";
