//! The tables. A bar is between two columns.

/// The keys of a command's columns.
pub const COMMAND_KEYS: [u8; 48] = *b"\
command|group|operands|asks|does|refused|example";

/// The commands, a row each: what it is called, its group, its operands, whether it only asks, what it does, when it is refused, and an example.
pub const COMMANDS: [u8; 8698] = *b"\
put|machine|ttss WORD, or ttss FRACTION, ttss = NUMBER, ttss = NUMBER POINT, ttss OPERATION|no|puts a word at an address|while the machine is going: press manual first|put 0050 = 385\n\
go|machine|ttss|no|starts the machine at an address, as an operator does|if there is no such address, or the clock would pass its limit|go 0000\n\
mount|machine|TEXT|no|puts a tape in the reader|while the machine is going, or if the text contains a character that does not exist on tape|mount 12a'\n\
press|machine|BUTTON, or SWITCH up, SWITCH down|no|presses a button, or sets a switch|never; a button that has no effect now is dead: live lists the ones that work|press start\n\
type|machine|TEXT|no|strikes the keys of the typewriter|if the text contains a character that does not exist on tape|type 000f0100\n\
turn|machine|NUMBER|no|lets word times pass while the machine is at rest|while the machine is going: press manual first|turn 64\n\
orders|machine|NUMBER|no|executes up to NUMBER orders, ignoring breakpoints and watchpoints|if the clock would pass its limit|orders 2\n\
run|machine|NUMBER, or NUMBER until CONDITION|no|executes up to NUMBER orders, until the machine rests, a rule stops it or an order meets the condition|if the clock would pass its limit|run 100\n\
operate|machine|NUMBER|no|runs, and presses Start after each print, at most NUMBER times|if the clock would pass its limit|operate 100\n\
trace|accounts|NUMBER|no|runs, and describes each order: its waits, what it changed, and what put it there|if the clock would pass its limit|trace 2\n\
profile|accounts|NUMBER|no|runs, and shows where the word times went|if the clock would pass its limit|profile 100\n\
drum|accounts|NUMBER|no|runs, and draws the orders along the turns of the drum|if the clock would pass its limit|drum 4\n\
optimum|accounts|NUMBER, or NUMBER ttss|no|runs, and shows which words would have cost less in other sectors|if the clock would pass its limit|optimum 100\n\
why|accounts|ttss|yes|says which step put a word where it is, and what was there before|if there is no such address|why 0002\n\
back|accounts|NUMBER|no|goes NUMBER orders back|if fewer orders are kept|back 1\n\
last|accounts||no|goes back to the latest order that a rule hits|if no rule hits any of the kept orders|last\n\
at|accounts|NUMBER LINE|yes|answers LINE as at the beginning of the order of that number, counted from 0; nothing is changed|if fewer orders were performed, or where LINE is|at 0 panel\n\
to|accounts|NUMBER, or first CONDITION, last CONDITION|no|brings the session to the beginning of an order, that of a number or the first or last one that meets a condition; the transcript becomes the lines that lead there|if there is no such order|to 0\n\
panel|look||yes|shows the registers, switches, reader and clock in one line|never|panel\n\
words|look|ttss NUMBER|yes|shows words as digits, at most 64|if the words would go past the end of the drum|words 0000 4\n\
show|look|ttss NUMBER|yes|shows words as orders, at most 64|if the words would go past the end of the drum|show 0000 4\n\
numbers|look|ttss NUMBER, or ttss NUMBER POINT|yes|shows words as fractions and numbers, at most 64|if the words would go past the end of the drum|numbers 0004 1\n\
printed|look||yes|shows the codes that were printed, as tape text|never|printed\n\
paper|look||yes|shows what was printed, as it looks on the typewriter's paper|never|paper\n\
dump|look||yes|shows all words that are not zero|never|dump\n\
labels|look||yes|shows the labels of the last source with their addresses|never|labels\n\
live|look||yes|shows which buttons do something now, and how the machine can continue|never|live\n\
break|rules|ttss|no|adds a rule that stops a run before the order at an address|if there are already 64 rules: drop removes one|break 0002\n\
watch|rules|ttss|no|adds a rule that stops a run after an order that changes a word|if there are already 64 rules: drop removes one|watch 0002\n\
drop|rules|NUMBER|no|removes a rule|if no rule has this number: the command rules lists them|drop 0\n\
rules|rules||yes|lists the rules with their numbers|never|rules\n\
source|source|nothing, or FILE|no|opens a source, whose lines follow, up to a line with only a point; or assembles the source in a file|if the source has faults, which are listed|source\n\
list|source||yes|shows the listing of the last source|if no source has been assembled yet|list\n\
load|source||no|keys in the loader, which loads the last source|if no source has been assembled yet|load\n\
do|files|FILE|no|takes the lines of a file as if they were typed|if it cannot be read, or 16 files are already open|do lines.txt\n\
tape|files|FILE|no|mounts the tape in a file of tape text|if it cannot be read, or is not tape text|tape tape.txt\n\
archive|files|FILE|no|mounts the tape in a file in the form of archives|if it cannot be read, or does not have this form|archive tape.txt\n\
bytes|files|FILE|no|mounts the tape in a file with one byte for each code|if it cannot be read, or has a byte above 63|bytes tape.bin\n\
copy|files|FILE|no|writes the tape in the reader to a file, as tape text|if the file cannot be written|copy tape.txt\n\
copy-archive|files|FILE|no|writes the tape in the reader to a file, in the form of archives|if the file cannot be written|copy-archive tape.txt\n\
copy-bytes|files|FILE|no|writes the tape in the reader to a file, one byte for each code|if the file cannot be written|copy-bytes tape.bin\n\
punch|files|FILE|no|writes what was printed to a file, as tape text|if the file cannot be written|punch printed.txt\n\
punch-archive|files|FILE|no|writes what was printed to a file, in the form of archives|if the file cannot be written|punch-archive printed.txt\n\
punch-bytes|files|FILE|no|writes what was printed to a file, one byte for each code|if the file cannot be written|punch-bytes printed.bin\n\
save|files|FILE|no|writes the drum to a file, as a dump|if the file cannot be written|save drum.txt\n\
save-simh|files|FILE|no|writes the drum to a file, in a form that SIMH reads|if the file cannot be written|save-simh drum.txt\n\
restore|files|FILE|no|puts the words of a dump on the drum|while the machine is going, or if it is not a dump|restore drum.txt\n\
restore-simh|files|FILE|no|puts the words of a text from SIMH on the drum|while the machine is going, or if the text does not have this form|restore-simh drum.txt\n\
transcript|session||yes|shows the script that leads to the same machine|never|transcript\n\
new|session||no|starts again with a new machine|never|new\n\
help|session|nothing, or COMMAND|yes|lists the commands, or explains one|if there is no such command|help trace\n\
quit|session||no|ends the program|never|quit\n\
commands|programs||yes|lists the commands: whether each only asks, and what it takes|never|commands\n\
panel-data|programs||yes|gives what the panel shows|never|panel-data\n\
trace-data|programs|NUMBER|no|does what trace does, for programs|if the clock would pass its limit|trace-data 2\n\
profile-data|programs|NUMBER|no|does what profile does, for programs|if the clock would pass its limit|profile-data 100\n\
optimum-data|programs|NUMBER, or NUMBER ttss|no|does what optimum does, for programs|if the clock would pass its limit|optimum-data 100\n\
state-data|programs||yes|gives the state of the panel, what is live, and how the machine can continue|never|state-data\n\
show-data|programs|ttss NUMBER|yes|gives words as digits, orders, numbers and fractions, at most 64|if the words would go past the end of the drum|show-data 0000 4\n\
why-data|programs|ttss|yes|says which step put a word where it is|if there is no such address|why-data 0002\n\
labels-data|programs||yes|gives the labels of the last source, each with its place and its line|never|labels-data\n\
rules-data|programs||yes|gives the rules|never|rules-data\n\
paper-data|programs|NUMBER|yes|gives what was printed after the first NUMBER codes|never|paper-data 0\n\
tape-data|programs||yes|says which codes of the tape have passed, and which are left|never|tape-data\n\
source-data|programs||yes|gives the lines of the source that was closed last, even if it has faults|never|source-data\n\
cost|programs|ttss|yes|says how long the order at an address would take if it were the next one|if there is no such address|cost 0000\n\
look|programs|ttss NUMBER KNOWN|yes|gives what a view draws: the state, at most 64 words, and what was printed after the first KNOWN codes|if the words would go past the end of the drum|look 0000 4 0\n\
json|programs|LINE|no|answers LINE, which must be one for programs, with an object of JSON for each record|if LINE is not for programs|json state-data\n\
commands-data|programs||yes|describes each command|never|commands-data\n\
operations-data|programs||yes|describes each operation of the source language|never|operations-data\n\
faults-data|programs||yes|describes each kind of fault in a source|never|faults-data\n";

/// The keys of an operation's columns.
pub const OPERATION_KEYS: [u8; 50] = *b"\
operation|operands|words|waits|stores|does|example";

/// The operations of the source language, a row each: what it is called, its operands, how many words it makes, whether it waits for its word and stores there,
/// what it does, and an example.
pub const OPERATIONS: [u8; 1906] = *b"\
z|nothing, or ttss, LABEL or *|1|no|no|stops the machine, unless a break point switch lets it go on|z\n\
b|ttss, LABEL or *|1|yes|no|brings the word into the accumulator|b 0300\n\
y|ttss, LABEL or *|1|yes|yes|stores the accumulator's address part in the word's address part|y 0300\n\
r|ttss, LABEL or *|1|yes|yes|stores the return address in the word's address part|r 0300\n\
i|nothing, or ttss, LABEL or *|1|no|no|reads codes from tape or keys into the accumulator|i 0000\n\
d|ttss, LABEL or *|1|yes|no|divides the accumulator by the word|d 0300\n\
n|ttss, LABEL or *|1|yes|no|multiplies by the word and keeps the lower half|n 0300\n\
m|ttss, LABEL or *|1|yes|no|multiplies by the word and keeps the upper half|m 0300\n\
p|nothing, or ttss, LABEL, *, or = and a sign|1|no|no|prints the code that its track names; p 0000 starts the reader|p =a\n\
e|ttss, LABEL or *|1|yes|no|keeps the bits of the accumulator where the word has a 1|e 0300\n\
u|ttss, LABEL or *|1|no|no|continues at the address|u 0300\n\
t|ttss, LABEL or *|1|no|no|continues at the address if the accumulator is negative|t 0300\n\
h|ttss, LABEL or *|1|yes|yes|stores the accumulator in the word and keeps it|h 0300\n\
c|ttss, LABEL or *|1|yes|yes|stores the accumulator in the word and clears it|c 0300\n\
a|ttss, LABEL or *|1|yes|no|adds the word to the accumulator|a 0300\n\
s|ttss, LABEL or *|1|yes|no|subtracts the word from the accumulator|s 0300\n\
-t|ttss, LABEL or *|1|no|no|continues at the address if the accumulator is negative or the switch Transfer Control is down|-t 0300\n\
word|eight digits|1|no|no|makes a word from these digits|word 000f0100\n\
frac|a fraction|1|no|no|makes a word from a fraction that is at least -1 and less than 1|frac .5\n\
int|a whole number and the place of its point|1|no|no|makes a word from a whole number|int 5 30\n\
org|ttss|0|no|no|says where the next word goes|org 0100\n\
end|nothing, or a label|0|no|no|ends the source and says where to start|end first\n";

/// The keys of a kind of fault's columns.
pub const FAULT_KEYS: [u8; 44] = *b"\
fault|part|marked|wrong|right|example|mended";

/// The kinds of faults, a row each: what it is called, which part of a line is at fault, whether that is marked, what is wrong and what would be right, and a source
/// with such a fault, and the same mended; a stroke stands for the end of a line.
pub const FAULTS: [u8; 1751] = *b"\
BadByte|line|yes|a character that is not allowed in a source|use only printable ASCII, blanks and tabs||\n\
AfterEnd|line|yes|something comes after the end line|make the end line the last one|first z/ end first/ z|first z/ z/ end first\n\
Extra|operands|yes|one operand too many|remove it, or begin a comment with ;| b 0300 0301/ end| b 0300/ end\n\
BadLabel|label|yes|the label is not in the right form|write one to eight small letters and digits, beginning with a letter|2nd z/ end|second z/ end\n\
LabelTwice|label|yes|an earlier line has the same label|give one of the two lines a different label|one z/one z/ end|one z/two z/ end\n\
UnknownOrder|operation|yes|there is no such operation|write one of the sixteen letters, -t, word, frac, int, org or end| x 0300/ end| a 0300/ end\n\
MissingOperand|operation|yes|an operand is missing|write the operand| b/ end| b 0300/ end\n\
BadOperand|operands|yes|the operand is not in the right form|write an address, a label or *, or what the operation takes| b 03000/ end| b 0300/ end\n\
UnknownName|operands|yes|no line has this label|check the spelling, or give a line this label|two z/ b tow/ end|two z/ b two/ end\n\
OutOfRange|operands|yes|outside the drum, or too large for a word|write an address from 0000 to 6363, or a number that fits| b 6363+1/ end| b 6363/ end\n\
PastEnd|line|yes|a word after 6363|use org to begin closer to 0000| org 6363/ z/ z/ end| org 6362/ z/ z/ end\n\
InLoader|line|yes|a word where the loader is|leave 6300 to 6321 free| org 6300/ z/ end| org 6322/ z/ end\n\
PlaceTaken|line|yes|an earlier line has already put a word here|use org to move one of the two| z/ org 0000/ z/ end| z/ org 0001/ z/ end\n\
NoEnd|line|no|the end line is missing|end with a line that has end and the label of the first order| z| z/ end\n";
