//! Texts, and their plans as they are printed. The named variables of a text have their numbers in its order, and after them come hidden
//! ones and registers.

use qs_algebra::{drop_pattern, translate};
use qs_plan::{drop_plan, plan, run_order, text_order};
use qs_syntax::{drop_query, parse_query};
use qs_terms::QFault;
use std::alloc::Global;

/// Texts and what is printed of their plans: how parts of patterns are laid.
const PLANS: &[(&str, &str)] = &[
    // the triple with more places fixed comes first
    (
        "SELECT * { ?a <u:p> ?b . ?b <u:q> <u:c> }",
        "triple ?1 <u:q> <u:c>\ntriple ?0 <u:p> ?1\n",
    ),
    // and then the one whose subject is bound by it, before one that stands first in the text
    (
        "SELECT * { ?d <u:r> ?e . ?a <u:p> ?b . ?b <u:q> <u:c> }",
        "triple ?3 <u:q> <u:c>\ntriple ?2 <u:p> ?3\ntriple ?0 <u:r> ?1\n",
    ),
    // of those with as many places fixed the first of the text comes first
    (
        "SELECT * { ?a <u:p> ?b . ?c <u:q> ?d . ?e <u:r> ?f }",
        "triple ?0 <u:p> ?1\ntriple ?2 <u:q> ?3\ntriple ?4 <u:r> ?5\n",
    ),
    (
        "SELECT * { ?a <u:p> ?b . ?b <u:q> ?a . ?a <u:r> ?b }",
        "triple ?0 <u:p> ?1\ntriple ?1 <u:q> ?0\ntriple ?0 <u:r> ?1\n",
    ),
    // one that shares a variable with those before comes before one that shares none
    (
        "SELECT * { ?a <u:p> 'x' . ?b <u:p> 'y' . ?a <u:q> ?b }",
        "triple ?0 <u:p> \"x\"\ntriple ?0 <u:q> ?1\ntriple ?1 <u:p> \"y\"\n",
    ),
    // a path that isn't joined is evaluated with its variables open; its predicate is a place that is fixed
    (
        "SELECT * { ?a <u:p>/<u:q>* ?b . ?b <u:r> 'x' }",
        "triple ?1 <u:r> \"x\"\npath ?0 (/ <u:p> <u:q>*) ?1\n",
    ),
    // a sequence is the triples of its parts, with a hidden variable between two of them, and an end that repeats a variable stays one
    (
        "SELECT * { ?a <u:p>/<u:q>/<u:r> ?b }",
        "triple ?0 <u:p> ?2\ntriple ?2 <u:q> ?3\ntriple ?3 <u:r> ?1\n",
    ),
    (
        "SELECT * { ?a <u:p>/<u:q> ?a }",
        "triple ?0 <u:p> ?1\ntriple ?1 <u:q> ?0\n",
    ),
    // the part next to an end that is given comes first
    (
        "SELECT * { ?a <u:p>/<u:q> <u:c> }",
        "triple ?1 <u:q> <u:c>\ntriple ?0 <u:p> ?1\n",
    ),
    // the hidden variables of sequences come after those of blank nodes
    (
        "SELECT * { ?a <u:p>/<u:q> _:x . _:x <u:r> ?b }",
        "triple ?2 <u:r> ?1\ntriple ?3 <u:q> ?2\ntriple ?0 <u:p> ?3\n",
    ),
    // an alternative is a union, whose branches may have their hidden variables in common, and an inverse exchanges the ends
    (
        "SELECT * { ?a <u:p>|^<u:q> ?b }",
        "union\n  branch\n    triple ?0 <u:p> ?1\n  branch\n    triple ?1 <u:q> ?0\n",
    ),
    (
        "SELECT * { ?a (<u:p>/<u:q>)|(<u:r>/<u:s>) ?b }",
        "union\n  branch\n    triple ?0 <u:p> ?2\n    triple ?2 <u:q> ?1\n  branch\n    triple ?0 <u:r> ?2\n    triple ?2 <u:s> ?1\n",
    ),
    (
        "SELECT * { ?a ^(<u:p>/<u:q>) ?b }",
        "triple ?1 <u:p> ?2\ntriple ?2 <u:q> ?0\n",
    ),
    // closures and negated sets stay paths, which are joined with the other parts where one of their ends is given
    (
        "SELECT * { <u:a> <u:p>+/<u:q> ?b }",
        "path <u:a> <u:p>+ ?1\ntriple ?1 <u:q> ?0\n",
    ),
    (
        "SELECT * { ?a <u:p>/<u:q>* <u:c> }",
        "path ?1 <u:q>* <u:c>\ntriple ?0 <u:p> ?1\n",
    ),
    (
        "SELECT * { ?a !<u:p>|<u:q> ?b }",
        "union\n  branch\n    path ?0 !(<u:p>|) ?1\n  branch\n    triple ?0 <u:q> ?1\n",
    ),
    // the parts look where the path does
    (
        "SELECT * { GRAPH ?g { ?a <u:p>/<u:q> ?b } }",
        "names ?3\nname ?0 = ?3\ntriple ?1 <u:p> ?4 in ?3\ntriple ?4 <u:q> ?2 in ?3\n",
    ),
    (
        "SELECT * { GRAPH <u:g> { ?a <u:p>|<u:q> ?b } }",
        "exists <u:g>\nunion\n  branch\n    triple ?0 <u:p> ?1 in <u:g>\n  branch\n    triple ?0 <u:q> ?1 in <u:g>\n",
    ),
    // what is optional is evaluated by itself, under its own conditions
    (
        "SELECT * { ?a <u:p> ?b OPTIONAL { ?b <u:q> ?c FILTER(?c = ?a) } }",
        "triple ?0 <u:p> ?1\noptional if (= ?2 ?0)\n  triple ?1 <u:q> ?2\n",
    ),
    (
        "SELECT * { ?a <u:p> ?b MINUS { ?a <u:q> ?b } }",
        "triple ?0 <u:p> ?1\nminus\n  triple ?0 <u:q> ?1\n",
    ),
    // after few rows it is fed each of them, and its triples are ordered by what the row binds
    (
        "SELECT * { <u:a> <u:p> ?b OPTIONAL { ?b <u:q> ?c FILTER(?c > ?b) } }",
        "triple <u:a> <u:p> ?0\noptional, fed if (> ?1 ?0)\n  triple ?0 <u:q> ?1\n",
    ),
    (
        "SELECT * { ?a <u:p> 'x' OPTIONAL { ?c <u:q> ?d . ?a <u:r> ?c } }",
        "triple ?0 <u:p> \"x\"\noptional, fed\n  triple ?0 <u:r> ?1\n  triple ?1 <u:q> ?2\n",
    ),
    (
        "SELECT * { VALUES ?a { <u:x> UNDEF } OPTIONAL { ?a <u:p> ?b } }",
        "values ?0, rows: 2\noptional, fed\n  triple ?0 <u:p> ?1\n",
    ),
    (
        "SELECT * { BIND(<u:x> AS ?a) OPTIONAL { ?a <u:p> ?b } }",
        "bind ?0 = <u:x>\noptional, fed\n  triple ?0 <u:p> ?1\n",
    ),
    (
        "SELECT * { GRAPH ?g { ?a <u:p> <u:x> OPTIONAL { ?a <u:q> ?b } } }",
        "names ?3\ntriple ?1 <u:p> <u:x> in ?3\noptional, fed\n  triple ?1 <u:q> ?2 in ?3\nname ?0 = ?3\n",
    ),
    // GRAPH with a variable is fed too
    (
        "SELECT * { <u:a> <u:p> ?b OPTIONAL { GRAPH ?g { ?b <u:q> ?c } } }",
        "triple <u:a> <u:p> ?0\noptional, fed\n  names ?3\n  name ?1 = ?3\n  triple ?0 <u:q> ?2 in ?3\n",
    ),
    // a group with filters is fed where it is certain to bind what they read
    (
        "SELECT * { <u:a> <u:p> ?b OPTIONAL { { ?b <u:q> ?c FILTER(?c > ?b) } } }",
        "triple <u:a> <u:p> ?0\noptional, fed\n  triple ?0 <u:q> ?1\n  filter (> ?1 ?0)\n",
    ),
    (
        "SELECT * { <u:a> <u:p> ?b OPTIONAL { { ?c <u:q> ?d FILTER(?d > ?b) } } }",
        "triple <u:a> <u:p> ?0\noptional\n  triple ?1 <u:q> ?2\n  filter (> ?2 ?0)\n",
    ),
    // so is one with an OPTIONAL of its own, which is fed what comes of the stages before it
    (
        "SELECT * { <u:a> <u:p> ?b OPTIONAL { ?b <u:p> ?c OPTIONAL { ?c <u:q> ?d } } }",
        "triple <u:a> <u:p> ?0\noptional, fed\n  triple ?0 <u:p> ?1\n  optional, fed\n    triple ?1 <u:q> ?2\n",
    ),
    // many subjects have a type in common
    (
        "SELECT * { ?a a <u:x> OPTIONAL { ?a <u:p> ?b } }",
        "triple ?0 <http://www.w3.org/1999/02/22-rdf-syntax-ns#type> <u:x>\noptional\n  triple ?0 <u:p> ?1\n",
    ),
    // a group that may see what stands inside it alone isn't fed, and neither is a closure
    (
        "SELECT * { <u:a> <u:p> ?b OPTIONAL { ?c <u:q> ?d OPTIONAL { ?b <u:r> ?c } } }",
        "triple <u:a> <u:p> ?0\noptional\n  triple ?1 <u:q> ?2\n  optional\n    triple ?0 <u:r> ?1\n",
    ),
    (
        "SELECT * { <u:a> <u:p> ?b OPTIONAL { ?b <u:q>* ?c } }",
        "triple <u:a> <u:p> ?0\noptional\n  path ?0 <u:q>* ?1\n",
    ),
    // a union that comes first is in line
    (
        "SELECT * { { ?a <u:p> ?b } UNION { ?b <u:q> ?c } }",
        "union\n  branch\n    triple ?0 <u:p> ?1\n  branch\n    triple ?1 <u:q> ?2\n",
    ),
    // a blank node is a hidden variable, and each block has its own
    (
        "SELECT * { ?a <u:p> _:x { ?a <u:q> _:y } }",
        "triple ?0 <u:p> ?1\ntriple ?0 <u:q> ?2\n",
    ),
    // the name is joined before the triples, which look in the register
    (
        "SELECT * { GRAPH ?g { ?a <u:p> _:b } }",
        "names ?2\nname ?0 = ?2\ntriple ?1 <u:p> ?3 in ?2\n",
    ),
    // where an OPTIONAL is inside, the graph is evaluated by itself, unless it comes first, and the name is joined last
    (
        "SELECT * { ?a <u:p> ?b GRAPH ?g { ?b <u:q> ?c OPTIONAL { ?c <u:r> ?d } } }",
        "triple ?0 <u:p> ?1\njoin\n  names ?5\n  triple ?1 <u:q> ?3 in ?5\n  optional of ?5\n    triple ?3 <u:r> ?4 in ?5\n  name ?2 = ?5\n",
    ),
    // the filter of a graph that doesn't come first sees neither its name nor what is bound outside
    (
        "SELECT * { ?a <u:p> ?b GRAPH ?g { ?a <u:q> ?c FILTER(?c = ?g) } }",
        "triple ?0 <u:p> ?1\njoin\n  names ?4\n  triple ?0 <u:q> ?3 in ?4\n  filter (= ?3 ?2)\n  name ?2 = ?4\n",
    ),
    // an absent graph has no solution, not even of the empty group
    ("ASK { GRAPH <u:g> {} }", "exists <u:g>\n"),
    (
        "SELECT * { GRAPH <u:g> { ?a <u:p> ?b OPTIONAL { ?b <u:q> ?c } } }",
        "exists <u:g>\ntriple ?0 <u:p> ?1 in <u:g>\noptional\n  triple ?1 <u:q> ?2 in <u:g>\n",
    ),
];

/// Texts and what is printed of their plans: where filters go.
const FILTERS: &[(&str, &str)] = &[
    // a filter goes before what doesn't bind a variable of it, and not into what is optional
    (
        "SELECT * { ?a <u:p> ?b . ?a <u:q> ?c FILTER(?b = 'x') }",
        "triple ?0 <u:p> ?1\nfilter (= ?1 \"x\")\ntriple ?0 <u:q> ?2\n",
    ),
    (
        "SELECT * { ?a <u:p> ?b OPTIONAL { ?b <u:q> ?c } FILTER(!bound(?c)) }",
        "triple ?0 <u:p> ?1\noptional\n  triple ?1 <u:q> ?2\nfilter (! (bound ?2))\n",
    ),
    (
        "SELECT * { VALUES ?a { <u:x> UNDEF } ?a <u:p> ?b BIND(str(?b) AS ?c) FILTER(?c > 'x') }",
        "values ?0, rows: 2\ntriple ?0 <u:p> ?1\nbind ?2 = (str ?1)\nfilter (> ?2 \"x\")\n",
    ),
    // a conjunction is a filter of each of its parts, whatever brackets stand in it
    (
        "SELECT * { ?a <u:p> ?b . ?a <u:q> ?c FILTER(?b = 'x' && ?c = 'y') }",
        "triple ?0 <u:p> ?1\nfilter (= ?1 \"x\")\ntriple ?0 <u:q> ?2\nfilter (= ?2 \"y\")\n",
    ),
    (
        "SELECT * { ?a <u:p> ?b . ?a <u:q> ?c FILTER((?b = 'x' && ?c = 'y') && isIRI(?a)) }",
        "triple ?0 <u:p> ?1\nfilter (= ?1 \"x\")\nfilter (isIRI ?0)\ntriple ?0 <u:q> ?2\nfilter (= ?2 \"y\")\n",
    ),
    // a disjunction stays whole
    (
        "SELECT * { ?a <u:p> ?b . ?a <u:q> ?c FILTER(?b = 'x' || ?c = 'y') }",
        "triple ?0 <u:p> ?1\ntriple ?0 <u:q> ?2\nfilter (|| (= ?1 \"x\") (= ?2 \"y\"))\n",
    ),
    // arithmetic, IF and CONCAT move as all else does
    (
        "SELECT * { ?a <u:p> ?b . ?a <u:q> ?c FILTER(?b + 1 > 2 * ?b) FILTER(if(?b, concat(?c), ?a)) }",
        "triple ?0 <u:p> ?1\nfilter (> (sum ?1 +\"1\"^^<http://www.w3.org/2001/XMLSchema#integer>) (* \"2\"^^<http://www.w3.org/2001/XMLSchema#integer> ?1))\ntriple ?0 <u:q> ?2\nfilter (if ?1 (concat ?2) ?0)\n",
    ),
    // what a row binds no OPTIONAL and no MINUS changes, so a filter on it goes before them
    (
        "SELECT * { ?a <u:p> ?b OPTIONAL { ?b <u:q> ?c } FILTER(?b = 'x') }",
        "triple ?0 <u:p> ?1\nfilter (= ?1 \"x\")\noptional\n  triple ?1 <u:q> ?2\n",
    ),
    (
        "SELECT * { ?a <u:p> ?b MINUS { ?a <u:q> ?b } FILTER(?b = 'x') }",
        "triple ?0 <u:p> ?1\nfilter (= ?1 \"x\")\nminus\n  triple ?0 <u:q> ?1\n",
    ),
    // what an OPTIONAL may bind isn't certain after it: the next one may bind it too
    (
        "SELECT * { ?a <u:p> ?b OPTIONAL { ?a <u:q> ?c } OPTIONAL { ?a <u:r> ?c } FILTER(?c = 'x') }",
        "triple ?0 <u:p> ?1\noptional\n  triple ?0 <u:q> ?2\noptional\n  triple ?0 <u:r> ?2\nfilter (= ?2 \"x\")\n",
    ),
    (
        "SELECT * { ?a <u:p> ?b OPTIONAL { ?a <u:q> ?c } OPTIONAL { ?a <u:r> ?d } FILTER(!bound(?c)) }",
        "triple ?0 <u:p> ?1\noptional\n  triple ?0 <u:q> ?2\nfilter (! (bound ?2))\noptional\n  triple ?0 <u:r> ?3\n",
    ),
    // into the branches of a union, to its place in each
    (
        "SELECT * { { ?a <u:p> ?b . ?b <u:q> ?c } UNION { ?a <u:r> ?b } FILTER(?b = 'x') }",
        "union\n  branch\n    triple ?0 <u:p> ?1\n    filter (= ?1 \"x\")\n    triple ?1 <u:q> ?2\n  branch\n    triple ?0 <u:r> ?1\n    filter (= ?1 \"x\")\n",
    ),
    // what each branch binds is certain after a union, and what one of them leaves unbound isn't; where no stage of a branch binds it, the
    // filter comes first
    (
        "SELECT * { { ?a <u:p> ?b } UNION { ?b <u:q> ?c } ?b <u:r> ?d FILTER(?b = 'x' && ?c = 'y') }",
        "union\n  branch\n    filter (= ?2 \"y\")\n    triple ?0 <u:p> ?1\n    filter (= ?1 \"x\")\n  branch\n    triple ?1 <u:q> ?2\n    filter (= ?1 \"x\")\n    filter (= ?2 \"y\")\ntriple ?1 <u:r> ?3\n",
    ),
    (
        "SELECT * { { ?a <u:p> ?b } UNION { ?b <u:q> ?c } ?b <u:r> ?c FILTER(?c = 'x') }",
        "union\n  branch\n    triple ?0 <u:p> ?1\n  branch\n    triple ?1 <u:q> ?2\ntriple ?1 <u:r> ?2\nfilter (= ?2 \"x\")\n",
    ),
    // VALUES binds a variable in each row, unless UNDEF stands in it
    (
        "SELECT * { VALUES ?a { <u:x> <u:y> } ?a <u:p> ?b FILTER(?a != <u:x>) }",
        "values ?0, rows: 2\nfilter (!= ?0 <u:x>)\ntriple ?0 <u:p> ?1\n",
    ),
    (
        "SELECT * { VALUES ?a { <u:x> UNDEF } ?a <u:p> ?b FILTER(?a != <u:x>) }",
        "values ?0, rows: 2\ntriple ?0 <u:p> ?1\nfilter (!= ?0 <u:x>)\n",
    ),
    // into a group that is joined, where the group is certain to bind each variable, and else not
    (
        "SELECT * { ?a <u:p> ?b { ?b <u:q> ?c OPTIONAL { ?c <u:r> ?d } } FILTER(?c = 'x') }",
        "triple ?0 <u:p> ?1\njoin\n  triple ?1 <u:q> ?2\n  filter (= ?2 \"x\")\n  optional\n    triple ?2 <u:r> ?3\n",
    ),
    (
        "SELECT * { ?a <u:p> ?b { ?b <u:q> ?c OPTIONAL { ?c <u:r> ?d } } FILTER(?d = 'x') }",
        "triple ?0 <u:p> ?1\njoin\n  triple ?1 <u:q> ?2\n  optional\n    triple ?2 <u:r> ?3\nfilter (= ?3 \"x\")\n",
    ),
    // the name of a graph is certain from where it is joined, before the triples in it
    (
        "SELECT * { GRAPH ?g { ?a <u:p> ?b } OPTIONAL { GRAPH ?g { ?b <u:q> ?c } } FILTER(?g != <u:g>) }",
        "names ?4\nname ?0 = ?4\nfilter (!= ?0 <u:g>)\ntriple ?1 <u:p> ?2 in ?4\noptional\n  names ?5\n  name ?0 = ?5\n  triple ?2 <u:q> ?3 in ?5\n",
    ),
    // BIND may leave its variable unbound
    (
        "SELECT * { ?a <u:p> ?b BIND(str(?b) AS ?c) OPTIONAL { ?a <u:q> ?c } FILTER(?c = 'x' && ?b = 'y') }",
        "triple ?0 <u:p> ?1\nfilter (= ?1 \"y\")\nbind ?2 = (str ?1)\noptional\n  triple ?0 <u:q> ?2\nfilter (= ?2 \"x\")\n",
    ),
    // a table of the terms that a condition leaves to a variable comes first, and the triples that bind the variable are looked up by it
    (
        "SELECT * { ?a ?b ?c FILTER(?a = <u:x>) }",
        "values ?0, rows: 1\nfilter (= ?0 <u:x>)\ntriple ?0 ?1 ?2\n",
    ),
    (
        "SELECT * { ?a ?b ?c FILTER(<u:x> = ?a) }",
        "values ?0, rows: 1\nfilter (= <u:x> ?0)\ntriple ?0 ?1 ?2\n",
    ),
    (
        "SELECT * { ?a <u:p> ?b . ?b <u:q> ?c FILTER(?c = <u:x>) }",
        "values ?2, rows: 1\nfilter (= ?2 <u:x>)\ntriple ?1 <u:q> ?2\ntriple ?0 <u:p> ?1\n",
    ),
    (
        "SELECT * { ?a ?b ?c FILTER(sameTerm(?c, 'x')) }",
        "values ?2, rows: 1\nfilter (sameTerm ?2 \"x\")\ntriple ?0 ?1 ?2\n",
    ),
    // each member of a list once
    (
        "SELECT * { ?a ?b ?c FILTER(?b IN (<u:x>, <u:y>, <u:x>)) }",
        "values ?1, rows: 2\nfilter (in ?1 <u:x> <u:y> <u:x>)\ntriple ?0 ?1 ?2\n",
    ),
    // one for each part of a conjunction
    (
        "SELECT * { ?a ?b ?c FILTER(?a = <u:x> && ?c = <u:y>) }",
        "values ?2, rows: 1\nfilter (= ?2 <u:y>)\nvalues ?0, rows: 1\nfilter (= ?0 <u:x>)\ntriple ?0 ?1 ?2\n",
    ),
    // an equal literal may be another term
    (
        "SELECT * { ?a ?b ?c FILTER(?c = 'x') }",
        "triple ?0 ?1 ?2\nfilter (= ?2 \"x\")\n",
    ),
    (
        "SELECT * { ?a ?b ?c FILTER(?c IN (<u:x>, 'x')) }",
        "triple ?0 ?1 ?2\nfilter (in ?2 <u:x> \"x\")\n",
    ),
    // what an OPTIONAL or a BIND binds may be unbound
    (
        "SELECT * { ?a <u:p> ?b OPTIONAL { ?b <u:q> ?c } FILTER(?c = <u:x>) }",
        "triple ?0 <u:p> ?1\noptional\n  triple ?1 <u:q> ?2\nfilter (= ?2 <u:x>)\n",
    ),
    (
        "SELECT * { ?a <u:p> ?b BIND(?b AS ?c) FILTER(?c = <u:x>) }",
        "triple ?0 <u:p> ?1\nbind ?2 = ?1\nfilter (= ?2 <u:x>)\n",
    ),
    // the table comes before what follows the triples
    (
        "SELECT * { ?a <u:p> ?b OPTIONAL { ?b <u:q> ?c } MINUS { ?a <u:r> ?d } FILTER(?a = <u:x>) }",
        "values ?0, rows: 1\nfilter (= ?0 <u:x>)\ntriple ?0 <u:p> ?1\noptional, fed\n  triple ?1 <u:q> ?2\nminus\n  triple ?0 <u:r> ?3\n",
    ),
    // before a union whose branches bind the variable, and in its branches
    (
        "SELECT * { { ?a <u:p> ?b } UNION { ?a <u:q> ?b } FILTER(?a = <u:x>) }",
        "values ?0, rows: 1\nfilter (= ?0 <u:x>)\nunion\n  branch\n    triple ?0 <u:p> ?1\n  branch\n    triple ?0 <u:q> ?1\n",
    ),
    (
        "SELECT * { { ?a <u:p> ?b FILTER(?a = <u:x>) } UNION { ?a <u:q> ?b } }",
        "union\n  branch\n    values ?0, rows: 1\n    filter (= ?0 <u:x>)\n    triple ?0 <u:p> ?1\n  branch\n    triple ?0 <u:q> ?1\n",
    ),
    // in graphs
    (
        "SELECT * { GRAPH <u:g> { ?a <u:p> ?b FILTER(?a = <u:x>) } }",
        "exists <u:g>\nvalues ?0, rows: 1\nfilter (= ?0 <u:x>)\ntriple ?0 <u:p> ?1 in <u:g>\n",
    ),
    (
        "SELECT * { GRAPH ?g { ?a <u:p> ?b FILTER(?a = <u:x>) } }",
        "names ?3\nname ?0 = ?3\nvalues ?1, rows: 1\nfilter (= ?1 <u:x>)\ntriple ?1 <u:p> ?2 in ?3\n",
    ),
    // a first group that isn't joined alone stays in line, and has its filter where it went
    (
        "SELECT * { { ?a <u:p> ?b OPTIONAL { ?b <u:q> ?c } } FILTER(?a = <u:x>) }",
        "triple ?0 <u:p> ?1\nfilter (= ?0 <u:x>)\noptional\n  triple ?1 <u:q> ?2\n",
    ),
    // a group that doesn't come first has its filters in line, if it is certain to bind what they read
    (
        "SELECT * { ?a <u:p> ?b { ?b <u:q> ?c FILTER(?c > 'x') } }",
        "triple ?0 <u:p> ?1\ntriple ?1 <u:q> ?2\nfilter (> ?2 \"x\")\n",
    ),
    (
        "SELECT * { ?a <u:p> ?b { ?b <u:q> ?c FILTER(?c = <u:x>) } }",
        "values ?2, rows: 1\nfilter (= ?2 <u:x>)\ntriple ?1 <u:q> ?2\ntriple ?0 <u:p> ?1\n",
    ),
    (
        "SELECT * { ?a <u:p> ?b { { ?b <u:q> ?c FILTER(?c > 'x') } UNION { ?b <u:r> ?c } } }",
        "triple ?0 <u:p> ?1\nunion\n  branch\n    triple ?1 <u:q> ?2\n    filter (> ?2 \"x\")\n  branch\n    triple ?1 <u:r> ?2\n",
    ),
    // so has one in each named graph
    (
        "SELECT * { ?a <u:p> ?b GRAPH ?g { ?a <u:q> ?c FILTER(?c > 'x') } }",
        "triple ?0 <u:p> ?1\nnames ?4\nname ?2 = ?4\ntriple ?0 <u:q> ?3 in ?4\nfilter (> ?3 \"x\")\n",
    ),
    // a filter on what the row before binds alone sees nothing of it
    (
        "SELECT * { ?a <u:p> ?b { ?b <u:q> ?c FILTER(?a = ?c) } }",
        "triple ?0 <u:p> ?1\njoin\n  triple ?1 <u:q> ?2\n  filter (= ?0 ?2)\n",
    ),
    // literals are escaped as in N-Quads
    (
        "SELECT * { ?a <u:p> 'x\"y\\\\z\\nw\\r' }",
        "triple ?0 <u:p> \"x\\\"y\\\\z\\nw\\r\"\n",
    ),
];

fn printed(alloc: Global, text: &str) -> Result<String, QFault> {
    let query = parse_query(alloc, text)?;
    let pattern = translate(alloc, &query);
    drop_query(query);
    let pattern = pattern?;
    let found = plan(alloc, &pattern);
    drop_pattern(pattern);
    let found = found?;
    let printed = found.to_string(alloc);
    drop_plan(found);
    Ok(printed?)
}

fn is_printed(alloc: Global, text: &str, expected: &str) -> Result<bool, QFault> {
    let printed = printed(alloc, text)?;
    Ok(printed.as_str() == expected)
}

fn are_printed(alloc: Global, plans: &[(&str, &str)]) -> bool {
    for (text, expected) in plans {
        match is_printed(alloc, text, expected) {
            Ok(true) => {}
            _ => return false,
        }
    }
    true
}

#[test]
fn plans_are_printed(rt: HostRuntime) {
    assert!(rt; are_printed(rt.alloc(), PLANS));
}

#[test]
fn plans_with_filters_are_printed(rt: HostRuntime) {
    assert!(rt; are_printed(rt.alloc(), FILTERS));
}

/// The plan in the order of the text, and what is printed of it.
fn printed_in_text_order(alloc: Global, text: &str) -> Result<(String, String), QFault> {
    let query = parse_query(alloc, text)?;
    let pattern = translate(alloc, &query);
    drop_query(query);
    let pattern = pattern?;
    let first = text_order(alloc, &pattern);
    drop_pattern(pattern);
    let first = first?;
    let second = run_order(alloc, &first);
    let before = first.to_string(alloc);
    drop_plan(first);
    let second = second?;
    let after = second.to_string(alloc);
    drop_plan(second);
    Ok((before?, after?))
}

fn are_in_order(alloc: Global) -> Result<bool, QFault> {
    let (before, after) = printed_in_text_order(
        alloc,
        "SELECT * { ?a <u:p> ?b . ?b <u:q> <u:c> }",
    )?;
    Ok(
        before.as_str() == "triple ?0 <u:p> ?1\ntriple ?1 <u:q> <u:c>\n"
            && after.as_str() == "triple ?1 <u:q> <u:c>\ntriple ?0 <u:p> ?1\n",
    )
}

fn is_in_order(alloc: Global) -> bool {
    match are_in_order(alloc) {
        Ok(is_right) => is_right,
        Err(_) => false,
    }
}

#[test]
fn steps_are_printed(rt: HostRuntime) {
    assert!(rt; is_in_order(rt.alloc()));
}
