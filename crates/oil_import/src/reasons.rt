//! Why something is left out, set or refused.

pub(crate) const NOT_GIVEN: &str = "no file of that name is given";

pub(crate) const INCLUDED_ALREADY: &str = "the file is included already";

pub(crate) const NOT_INCLUDED: &str = "no file includes it";

pub(crate) const UNENDED: &str = "a comment or string has no end";

pub(crate) const NO_TOKEN: &str = "nothing of OIL begins here";

pub(crate) const DIRECTIVE: &str = "of the preprocessor only #include is read";

pub(crate) const MISPLACED: &str = "it can't stand here; maybe a ; is missing before it";

pub(crate) const NOTHING_TO_CLOSE: &str = "no brace is open";

pub(crate) const NOT_CLOSED: &str = "a brace isn't closed";

pub(crate) const OTHER_VERSION: &str = "read as 2.5";

pub(crate) const NO_VERSION: &str = "it is missing";

pub(crate) const IMPLEMENTATION: &str = "only the defaults of attributes are read in it";

pub(crate) const IMPLEMENTED: &str = "it is missing, and the IMPLEMENTATION has that default";

pub(crate) const BLOCK_OF_DEFAULT: &str =
    "it is missing, and the block of an IMPLEMENTATION's default isn't read";

pub(crate) const OUTSIDE: &str = "nothing but a CPU is read here";

pub(crate) const SECOND_CPU: &str = "there is one CPU";

pub(crate) const NO_CPU: &str = "it is missing";

pub(crate) const NO_NAME: &str = "a name is wanted behind it";

pub(crate) const NO_VALUE: &str = "a value is wanted behind it";

pub(crate) const BAD_NAME: &str =
    "a name is a letter or _, then letters, digits and _, at most 32; INVALID and r0 to r7 are none";

pub(crate) const LONG: &str = "a name has at most 32 letters here";

pub(crate) const NO_END: &str =
    "a name has at most 32 letters, and the end of this one is no name, or another's too";

pub(crate) const UNKNOWN_KIND: &str = "there are no objects of that kind";

pub(crate) const COMMUNICATION: &str = "communication and network management are left out";

pub(crate) const UNKNOWN_ATTRIBUTE: &str = "there is no such attribute";

pub(crate) const BUDGETS: &str =
    "there is no such attribute; --work takes an EXECUTIONBUDGET in it";

pub(crate) const CLASS: &str = "the conformance class follows from the objects";

pub(crate) const SCHEDULING: &str = "each task has its own SCHEDULE";

pub(crate) const NO_HOOK_CODE: &str = "hooks have no code, so nothing asks for it";

pub(crate) const HOOK: &str = "its calls are recorded; code of its own isn't run";

pub(crate) const DIVIDES: &str = "the counter grows once in so many ticks";

pub(crate) const RES_SCHEDULER_IS_THERE: &str = "it is there without being declared";

pub(crate) const RES_SCHEDULER_IS_OPEN: &str = "it is open to every task";

pub(crate) const TWICE: &str = "it stands a second time";

pub(crate) const NAMED_ALREADY: &str = "that name stands in the list already";

pub(crate) const MISSING: &str = "it is missing";

pub(crate) const AUTOMATIC: &str = "it stood as AUTO";

pub(crate) const NOT_CHOSEN: &str = "AUTO can't be chosen here";

pub(crate) const ONE_MODE: &str = "it is missing, and there is no other mode";

pub(crate) const MODES_WANTED: &str = "it is missing, and there are several modes";

pub(crate) const DEFAULT_MODE: &str = "it is there without being declared";

pub(crate) const UNKNOWN_REFERENCE: &str = "no object of that kind has the name";

pub(crate) const EXTENDED_STATUS: &str = "EXTENDED or STANDARD is wanted";

pub(crate) const STANDARD_STATUS: &str = "read as EXTENDED, so more errors are found here";

pub(crate) const RENUMBERED: &str = "only the order of priorities counts; they are numbered anew";

pub(crate) const TOO_FAR: &str = "a counter counts to at most that here, so it wraps sooner";

pub(crate) const COUNTS_TICKS: &str =
    "it counts ticks here, as every counter, whatever counts it up elsewhere";

pub(crate) const NOT_ZERO: &str = "it is 1 or more";

pub(crate) const OTHER_ACTION: &str =
    "it is load that has to be expressed: give an ALARM or an ISR that does it";

pub(crate) const XML: &str =
    "this is XML; of AUTOSAR's descriptions (ARXML) none is read, only OIL";

pub(crate) const SWITCH: &str = "TRUE or FALSE is wanted";

pub(crate) const PRIORITIES_OF_TASKS: &str =
    "a task's priority is 0 to 63; greater ones are numbered anew if at most 64 differ";

pub(crate) const PRIORITIES_OF_ROUTINES: &str =
    "a routine's priority is 0 to 31; greater ones are numbered anew if at most 32 differ";

pub(crate) const SCHEDULES: &str = "NON or FULL is wanted";

pub(crate) const ACTIVATIONS: &str = "a task has 1 to 15 activations";

pub(crate) const CATEGORIES: &str = "there are only routines of category 2";

pub(crate) const OTHER_CATEGORY: &str =
    "there are only routines of category 2; --bend takes it as one";

pub(crate) const BENT_CATEGORY: &str =
    "taken as 2: it waits for the end of a tick, of another routine and of suspended interrupts";

pub(crate) const BENT_PRIORITY: &str =
    "it is missing, and a routine of category 1 or 3 comes before those of category 2";

pub(crate) const PROPERTIES: &str = "a resource is STANDARD, INTERNAL or LINKED";

pub(crate) const LINKED: &str =
    "a resource of its own; who lists one that is linked lists all, so their ceiling is one";

pub(crate) const NO_LINK: &str =
    "it is linked to no standard resource: to none, to an internal one, or in a circle";

pub(crate) const ONE_CEILING: &str = "it is linked to one in the list, and their ceiling is one";

pub(crate) const MASKS: &str = "AUTO or 1 to 4294967295 is wanted";

pub(crate) const EXPIRY: &str = "an alarm for each action of a table, called TABLE_OFFSET";

pub(crate) const EXPIRY_NAMED: &str = "another alarm has that name; rename the table or that one";

pub(crate) const EXPIRY_UNNAMED: &str =
    "an alarm TABLE_OFFSET stands for it, but no end of 32 letters of that is a name";

pub(crate) const NO_EXPIRIES: &str = "it has no ACTION, so it does nothing";

pub(crate) const BEYOND_TABLE: &str =
    "a point lies within the DURATION of its table, before its end if it repeats";

pub(crate) const BEYOND_COUNTER: &str =
    "with the table's start it is above MAXALLOWEDVALUE of the counter, so no alarm can say it";

pub(crate) const CYCLE: &str =
    "the cycle of an alarm is MINCYCLE to MAXALLOWEDVALUE of its counter";

pub(crate) const IN_TICK_ZERO: &str =
    "no alarm expires in tick 0, so first a DURATION later; an AUTOSTART can start a task there";

pub(crate) const NEVER: &str =
    "no alarm expires in tick 0, and the table doesn't repeat; an AUTOSTART can start a task there";

pub(crate) const NOT_STARTED: &str =
    "no service starts a table here: without an AUTOSTART = TRUE its alarms don't expire";

pub(crate) const START_WANTED: &str = "a number is wanted in it: the count at which it starts";

pub(crate) const START_TWICE: &str =
    "a number stands before it, and one alone is the count at which the table starts";

pub(crate) const START_TYPES: &str = "a table starts at ABSOLUTE or RELATIVE counts";

pub(crate) const SYNCHRONIZED: &str =
    "no service adjusts a table here; --bend takes it as one that is never adjusted";

pub(crate) const BENT_SYNCHRONIZED: &str =
    "never adjusted here: the distances of its points are always those that it says";

pub(crate) const LOAD: &str = "it may be load, and isn't known here: give an ACTION that does it";

pub(crate) const ACTIONS: &str =
    "an alarm activates a task or sets an event; callbacks can't be expressed";

pub(crate) const NUMBERS: &str = "a number is wanted, 0 to 4294967295";

pub(crate) const ROUTINES_RESOURCE: &str =
    "an interrupt routine can't get resources; --bend leaves it out";

pub(crate) const SHARED_RESOURCE: &str =
    "of no effect: the routine can interrupt a task that holds it, unless it suspends interrupts";

pub(crate) const RESOURCE_OF_ROUTINES: &str =
    "no task lists it, and routines don't interrupt each other";

pub(crate) const ONE_ACTIVATION: &str = "an extended task, which lists events, has one activation";

pub(crate) const BASIC_TASK: &str = "the task lists no events, so none can be set for it";

pub(crate) const TOO_MANY_MODES: &str = "there are at most 8";

pub(crate) const TOO_MANY_TASKS: &str = "there are at most 64";

pub(crate) const TOO_MANY_ROUTINES: &str = "there are at most 16";

pub(crate) const TOO_MANY_RESOURCES: &str = "there are at most 32";

pub(crate) const TOO_MANY_COUNTERS: &str = "there are at most 8";

pub(crate) const ONE_OS: &str = "there is one OS object";

pub(crate) const NOT_READ: &str = "what it becomes is no system that can be read";
