//! Derivations as texts.
//!
//! A tree is written in prefix notation, in the words of the node table. The number or the name of a
//! node stands behind its word and a colon, as in `v:0` and `post:A`, and names of trees may stand in
//! their places. A step is written as `NUMBER ROW NUMBER JUDGMENT, TREE, ..; PREMISE ..`: first its own
//! number, then its line, with a tree in the place of each node.

use rz_rules::{Kind, Worded};
use std::alloc::Global;
use std::test::Fail;

/// A name for a tree, and the tree, in which earlier names may stand.
pub type Named = (&'static str, &'static str);

/// Names that all derivations share.
const NAMES: &[Named] = &[
    // Cubes of many leaves, topes, and contexts of points and topes.
    ("cube2", "cx c2 c2"),
    ("cube4", "cx cube2 cube2"),
    ("cube8", "cx cube4 cube4"),
    ("cube16", "cx cube8 cube8"),
    ("cube32", "cx cube16 cube16"),
    ("cube64", "cx cube32 cube32"),
    ("again", "pv:1"), // Another node for a variable.
    ("0<=1", "tle pv:0 pv:1"),
    ("1<=0", "tle pv:1 pv:0"),
    ("0<=end", "tle pv:0 p1"),
    ("start<=0", "tle p0 pv:0"),
    ("0=start", "teq c2 pv:0 p0"),
    ("start=0", "teq c2 p0 pv:0"),
    ("/t", "xcube nil c2"),
    ("/t/true", "xtope /t ttop"),
    ("/t/true/false", "xtope /t/true tbot"),
    ("/false", "xtope nil tbot"),
    ("/st", "xcube /t c2"),
    ("/st/0<=1", "xtope /st 0<=1"),
    ("/st/0<=1/0=start", "xtope /st/0<=1 0=start"),
    ("/st/1<=0", "xtope /st 1<=0"),
    // A type, terms of it, and a family of types over it.
    ("A", "post:A U"),
    ("a", "post:a A"),
    ("ad", "const:ad A a"),
    ("/A", "xterm nil A"),
    ("/A/A", "xterm /A A"),
    ("/A/t", "xcube /A c2"),
    ("/A/t/start<=0", "xtope /A/t start<=0"),
    ("/A/t/0<=end", "xtope /A/t 0<=end"),
    ("/st/A", "xterm /st A"),
    ("/st/A/A", "xterm /st/A A"),
    ("P", "post:P pi A U"),
    ("P(a)", "app A U P a"),
    ("B", "app A U P v:0"),
    ("f", "post:f pi A B"),
    ("f(0)", "app A B f v:0"),
    ("idU", "lam U U v:0"),
    ("idU(A)", "app U U idU A"),
    ("idA", "lam A A v:0"),
    // Induction along equalities: motives, and the contexts of its parts.
    ("Motive", "pi A pi id A v:1 v:0 U"),
    (
        "Case",
        "app id A v:1 v:1 U app A pi id A v:2 v:0 U v:0 v:1 refl A v:1",
    ),
    ("/A/M", "xterm /A Motive"),
    ("/A/M/C", "xterm /A/M Case"),
    ("/A/M/C/A", "xterm /A/M/C A"),
    ("/A/M/C/A/id", "xterm /A/M/C/A id A v:3 v:0"),
    ("/st/A/M", "xterm /st/A Motive"),
    ("/st/A/M/C", "xterm /st/A/M Case"),
    ("/st/A/M/C/A", "xterm /st/A/M/C A"),
    ("/st/A/M/C/A/id", "xterm /st/A/M/C/A id A v:3 v:0"),
    // A family of types on the interval, and a function of it, each at a point.
    ("U^t", "ext c2 ttop U tbot abort U"),
    ("D", "post:D U^t"),
    ("D(0)", "xapp c2 ttop U tbot abort U D pv:0"),
    ("D(1)", "xapp c2 ttop U tbot abort U D pv:1"),
    ("D(pr)", "xapp c2 ttop U tbot abort U D pr pv:0"),
    ("D^t", "ext c2 ttop D(0) tbot abort D(0)"),
    ("d", "post:d D^t"),
    ("d(0)", "xapp c2 ttop D(0) tbot abort D(0) d pv:0"),
    ("d(1)", "xapp c2 ttop D(0) tbot abort D(0) d pv:1"),
    ("idD", "lam D(0) D(0) v:0"),
    ("idD(d)", "app D(0) D(0) idD d(0)"),
    ("E", "ext c2 0<=1 D(0) 0=start d(0)"),
    ("e", "xlam c2 0<=1 D(0) 0=start d(0) idD(d)"),
    ("d=d", "id D(0) d(0) d(0)"),
    ("/t/D", "xterm /t D(0)"),
    ("/t/D/D", "xterm /t/D D(0)"),
    ("/t/E", "xterm /t E"),
    ("/st/0<=1/D", "xterm /st/0<=1 D(0)"),
];

/// The lines of a file's nodes, and the numbers of those that have names.
#[derive(Drop)]
pub struct Nodes {
    lines: Vec<String>,
    names: Vec<(&'static str, usize)>,
}

impl Nodes {
    /// The nodes of the names that all derivations share.
    pub fn new(alloc: Global) -> Result<Nodes, Fail> {
        let mut nodes = Nodes {
            lines: Vec::new(alloc),
            names: Vec::new(alloc),
        };
        nodes.define(alloc, NAMES)?;
        Ok(nodes)
    }

    /// How many lines there are.
    pub fn len(&self) -> usize {
        self.lines.len()
    }

    /// Adds names, each for a node of its own.
    pub fn define(&mut self, alloc: Global, names: &'static [Named]) -> Result<(), Fail> {
        for (name, tree) in names {
            let before = self.lines.len();
            let mut number = self.read(alloc, tree)?;
            if number < before {
                let line = self.lines.get(number).ok_or("no line")?;
                let again = String::from_str(alloc, line.as_str())?;
                number = self.lines.len();
                self.lines.push(again)?;
            }
            self.names.push((*name, number))?;
        }
        Ok(())
    }

    /// The number of a tree's node.
    pub fn read(&mut self, alloc: Global, tree: &str) -> Result<usize, Fail> {
        let mut stack = Vec::new(alloc);
        for word in tree.rsplit(' ') {
            let number = match self.named(word) {
                Some(number) => number,
                None => {
                    let line = node_line(alloc, word, &mut stack)?;
                    self.number_of(line)?
                }
            };
            stack.push(number)?;
        }
        Ok(stack.pop().ok_or("no tree")?)
    }

    /// The number of the node that has a name.
    fn named(&self, word: &str) -> Option<usize> {
        for (name, number) in &self.names {
            if *name == word {
                return Some(*number);
            }
        }
        None
    }

    /// The number of a line, which is added where it isn't there.
    fn number_of(&mut self, line: String) -> Result<usize, Fail> {
        for (number, old) in self.lines.iter().enumerate() {
            if old.as_str() == line.as_str() {
                return Ok(number);
            }
        }
        let number = self.lines.len();
        self.lines.push(line)?;
        Ok(number)
    }

    /// Adds the lines of the nodes to a file.
    pub fn write(&self, text: &mut Vec<u8>) -> Result<(), Fail> {
        for line in &self.lines {
            text.extend_from_slice(b"n ")?;
            text.extend_from_slice(line.as_str().as_bytes())?;
            text.push(b'\n')?;
        }
        Ok(())
    }
}

/// The line of a node, whose kids are on the stack, the first on top.
fn node_line(alloc: Global, word: &str, stack: &mut Vec<usize>) -> Result<String, Fail> {
    let mut line = String::new(alloc);
    let mut kids = None;
    for part in word.split(':') {
        match kids {
            None => {
                let kind = Kind::of_word(part.as_bytes()).ok_or("no word")?;
                kids = Some(kind.form().kids);
            }
            Some(_) => line.push(' ')?,
        }
        line.push_str(part)?;
    }
    for _ in kids.ok_or("no word")? {
        let kid = stack.pop().ok_or("no kid")?;
        line.push_str(format!(in alloc; " {kid}")?.as_str())?;
    }
    Ok(line)
}

/// The words of a step's line, but for the first, in the place of which its number stands.
pub type Words = Vec<String>;

/// The words of a step.
pub fn words_of(alloc: Global, nodes: &mut Nodes, step: &str) -> Result<Words, Fail> {
    let mut words = Vec::new(alloc);
    let mut sides = step.split(';');
    let said = sides.next().ok_or("no step")?;
    let mut parts = said.split(',');
    for word in parts.next().ok_or("no row")?.split(' ') {
        words.push(String::from_str(alloc, word)?)?;
    }
    for tree in parts {
        let number = nodes.read(alloc, tree.trim_start())?;
        words.push(format!(in alloc; "{number}")?)?;
    }
    if let Some(premises) = sides.next() {
        for premise in premises.trim_start().split(' ') {
            words.push(String::from_str(alloc, premise)?)?;
        }
    }
    Ok(words)
}

/// Adds the line of a step to a file, with another word at a place where there is one.
pub fn write_step(
    text: &mut Vec<u8>,
    words: &Words,
    change: Option<(usize, &str)>,
) -> Result<(), Fail> {
    text.push(b's')?;
    for (place, word) in words.iter().enumerate() {
        let taken = match change {
            Some((changed, other)) if changed == place => other,
            _ => word.as_str(),
        };
        if place > 0 {
            text.push(b' ')?;
            text.extend_from_slice(taken.as_bytes())?;
        }
    }
    text.push(b'\n')?;
    Ok(())
}

/// The words of steps, whose own numbers go on from this one.
pub fn read_steps(
    alloc: Global,
    nodes: &mut Nodes,
    list: &mut Vec<Words>,
    steps: &[&str],
) -> Result<(), Fail> {
    for step in steps {
        let words = words_of(alloc, nodes, step)?;
        let number = format!(in alloc; "{}", list.len())?;
        if words
            .first()
            .is_none_or(|word| word.as_str() != number.as_str())
        {
            return Err("another number")?;
        }
        list.push(words)?;
    }
    Ok(())
}
