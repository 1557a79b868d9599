//! The parser, which takes the tokens of a query one after the other. It keeps the groups that are open in a list, so
//! that a query of any depth is read without recursion.

ghost use Rattle.std.specs.Prelude.{◌≡◌, ◌≤◌, ◌++◌, ◌∷◌, [], Some, ◌+◌, ◌<◌, IfOk, IfErr, OnOk};
ghost use Rattle.pred_eval.specs.Tree.{tree_of, Always, Never, Tagged};
ghost use Rattle.query_lang.specs.Grammar.{all_of};
ghost use Rattle.query_lang.specs.Parsing.{start, empty_group, group_of, state_of, negated, with_part, tree_of_group, joined, opened, denied, closed, operand_step, tag_step, operator_step, literal_step, joint_step, step, finish, within_limit, Leaves, Ends};

use crate::fault::QueryFault;
use crate::grammar::{all_of, any_of, negated, test_of};
use crate::token::{Operator, Token};
use ev_types::{Field, Memory, Text};
use pred_eval::{Rule, Rules};
use std::alloc::Global;
use std::mem;

/// The most tokens of a query that are `(` or `not`.
pub const MAX_OPENINGS: usize = 64;

/// The part of a query between a parenthesis and its partner, or of the whole query, as far as it was read.
#[derive(Drop)]
pub(crate) struct Group {
    /// The alternatives before the last `or`.
    alternatives: Rules,
    /// The parts after it, before the last `and`.
    parts: Rules,
    /// The number of `not` before the next part.
    nots: usize,
}

/// What may come next.
#[derive(Drop)]
pub(crate) enum Wants {
    Operand,
    /// The string after `tagged`.
    Tag,
    Operator(Field),
    Literal(Field, Operator),
    /// `and`, `or`, `)` or the end.
    Joint,
}

/// A parser with what it holds of the query so far.
#[derive(Drop)]
pub(crate) struct Parser {
    /// The groups around the innermost one, the nearest last.
    outer: Vec<Group>,
    group: Group,
    /// How many tokens were `(` or `not`.
    openings: usize,
    wants: Wants,
}

impl Group {
    fn fresh(alloc: Global) -> Group
        ensures { group_of result ≡ empty_group }
    {
        Group {
            alternatives: Vec::new(alloc),
            parts: Vec::new(alloc),
            nots: 0,
        }
    }

    /// Adds a part, after the `not`s that wait for it.
    fn add_part(&mut self, alloc: Global, rule: Rule) -> Result<(), Memory>
        ensures { OnOk result (group_of self.new ≡ with_part (tree_of rule) (group_of self.old)) }
    {
        let part = deny(alloc, self.nots, rule)?;
        self.nots = 0;
        self.parts.push(part)?;
        Ok(())
    }

    /// Ends an alternative, whose parts these are.
    fn end_alternative(&mut self, alloc: Global) -> Result<(), Memory>
        ensures { OnOk result (group_of self.new
            ≡ record {
              alternatives = (group_of self.old).alternatives
                  ++ all_of (group_of self.old).parts ∷ [];
              parts = [];
              nots = self.old.nots;
            }) }
    {
        let parts = mem::replace(&mut self.parts, Vec::new(alloc));
        self.alternatives.push(all_of(parts))?;
        Ok(())
    }

    /// The rule of the whole group.
    fn into_rule(mut self, alloc: Global) -> Result<Rule, Memory>
        ensures { IfOk result (λ rule. tree_of rule ≡ tree_of_group (group_of self)) }
    {
        self.end_alternative(alloc)?;
        Ok(any_of(self.alternatives))
    }
}

/// The rule after n `not`s.
#[tactic(auto, using(crate::proofs::ParserLaws::negated_more))]
fn deny(alloc: Global, nots: usize, rule: Rule) -> Result<Rule, Memory>
    ensures { IfOk result (λ denied. tree_of denied ≡ negated nots (tree_of rule)) }
{
    let mut denied = rule;
    for _not in 0..nots {
        denied = negated(alloc, denied)?;
    }
    Ok(denied)
}

impl Parser {
    pub(crate) fn fresh(alloc: Global) -> Parser
        ensures { state_of result ≡ start }
    {
        Parser {
            outer: Vec::new(alloc),
            group: Group::fresh(alloc),
            openings: 0,
            wants: Wants::Operand,
        }
    }

    /// Takes the next token, which is at `place`. After an error the parser is of no more use.
    #[tactic(auto, unfolding(crate::specs::Parsing::step))]
    pub(crate) fn take(
        &mut self,
        alloc: Global,
        token: Token,
        place: usize,
    ) -> Result<(), QueryFault>
        requires few { self.old.openings ≤ MAX_OPENINGS }
        requires nots { self.old.group.nots ≤ self.old.openings }
        ensures { Leaves result (state_of self.new)
            (within_limit place (step (state_of self.old) token)) }
    {
        match mem::replace(&mut self.wants, Wants::Joint) {
            Wants::Operand => self.take_operand(alloc, token, place)?,
            Wants::Tag => self.take_tag(alloc, token, place)?,
            Wants::Operator(field) => self.take_operator(field, token, place)?,
            Wants::Literal(field, operator) => self.take_literal(
                alloc, field, operator, token, place,
            )?,
            Wants::Joint => self.take_joint(alloc, token, place)?,
        }
        Ok(())
    }

    /// The rule of the tokens, where they are a whole query of `length` bytes.
    #[tactic(auto, unfolding(crate::specs::Parsing::finish))]
    pub(crate) fn finish(self, alloc: Global, length: usize) -> Result<Rule, QueryFault>
        ensures { Ends result length (finish (state_of self)) }
    {
        match self.wants {
            Wants::Joint if self.outer.is_empty() => Ok(self.group.into_rule(alloc)?),
            _ => Err(QueryFault::Refused { place: length }),
        }
    }

    fn take_operand(&mut self, alloc: Global, token: Token, place: usize) -> Result<(), QueryFault>
        requires few { self.old.openings ≤ MAX_OPENINGS }
        requires nots { self.old.group.nots ≤ self.old.openings }
        ensures { Leaves result (state_of self.new)
            (within_limit place (operand_step (state_of self.old) token)) }
    {
        match token {
            Token::Open => self.open(alloc, place)?,
            Token::Not => self.deny_next(place)?,
            Token::True => self.join(alloc, Rule::Always)?,
            Token::False | Token::Nil => self.join(alloc, Rule::Never)?,
            Token::Tagged => self.wants = Wants::Tag,
            Token::Name(name) => self.take_name(name, place)?,
            _ => return Err(QueryFault::Refused { place }),
        }
        Ok(())
    }

    fn take_name(&mut self, name: Text, place: usize) -> Result<(), QueryFault>
        requires { self.old.openings ≤ MAX_OPENINGS }
        ensures { Leaves result (state_of self.new)
            (within_limit place (operand_step (state_of self.old) (Token.Name name))) }
    {
        let Some(field) = Field::named(name) else {
            return Err(QueryFault::Refused { place });
        };
        self.wants = Wants::Operator(field);
        Ok(())
    }

    fn take_tag(&mut self, alloc: Global, token: Token, place: usize) -> Result<(), QueryFault>
        requires { self.old.openings ≤ MAX_OPENINGS }
        ensures { Leaves result (state_of self.new)
            (within_limit place (tag_step (state_of self.old) token)) }
    {
        let Token::Quoted(tag) = token else {
            return Err(QueryFault::Refused { place });
        };
        self.join(alloc, Rule::Tagged(tag))?;
        Ok(())
    }

    fn take_operator(&mut self, field: Field, token: Token, place: usize) -> Result<(), QueryFault>
        requires { self.old.openings ≤ MAX_OPENINGS }
        ensures { Leaves result (state_of self.new)
            (within_limit place (operator_step field (state_of self.old) token)) }
    {
        let Token::Operator(operator) = token else {
            return Err(QueryFault::Refused { place });
        };
        self.wants = Wants::Literal(field, operator);
        Ok(())
    }

    fn take_literal(
        &mut self,
        alloc: Global,
        field: Field,
        operator: Operator,
        token: Token,
        place: usize,
    ) -> Result<(), QueryFault>
        requires { self.old.openings ≤ MAX_OPENINGS }
        ensures { Leaves result (state_of self.new)
            (within_limit place (literal_step field operator (state_of self.old) token)) }
    {
        let Some(rule) = test_of(alloc, field, operator, token)? else {
            return Err(QueryFault::Refused { place });
        };
        self.join(alloc, rule)?;
        Ok(())
    }

    fn take_joint(&mut self, alloc: Global, token: Token, place: usize) -> Result<(), QueryFault>
        requires { self.old.openings ≤ MAX_OPENINGS }
        ensures { Leaves result (state_of self.new)
            (within_limit place (joint_step (state_of self.old) token)) }
    {
        match token {
            Token::And => self.wants = Wants::Operand,
            Token::Or => {
                self.group.end_alternative(alloc)?;
                self.wants = Wants::Operand;
            }
            Token::Close => self.close(alloc, place)?,
            _ => return Err(QueryFault::Refused { place }),
        }
        Ok(())
    }

    /// Adds an operand.
    fn join(&mut self, alloc: Global, rule: Rule) -> Result<(), Memory>
        ensures { OnOk result (state_of self.new ≡ joined (tree_of rule) (state_of self.old)) }
    {
        self.group.add_part(alloc, rule)?;
        self.wants = Wants::Joint;
        Ok(())
    }

    /// Begins a group.
    fn open(&mut self, alloc: Global, place: usize) -> Result<(), QueryFault>
        requires { self.old.openings ≤ MAX_OPENINGS }
        ensures { Leaves result (state_of self.new)
            (within_limit place (Some (opened (state_of self.old)))) }
    {
        self.count_opening(place)?;
        self.push_group(alloc)?;
        Ok(())
    }

    fn push_group(&mut self, alloc: Global) -> Result<(), Memory>
        ensures { OnOk result (state_of self.new
            ≡ record (opened (state_of self.old)) { openings = self.old.openings }) }
    {
        let group = mem::replace(&mut self.group, Group::fresh(alloc));
        self.outer.push(group)?;
        self.wants = Wants::Operand;
        Ok(())
    }

    /// Denies the next operand.
    fn deny_next(&mut self, place: usize) -> Result<(), QueryFault>
        requires few { self.old.openings ≤ MAX_OPENINGS }
        requires nots { self.old.group.nots ≤ self.old.openings }
        ensures { Leaves result (state_of self.new)
            (within_limit place (Some (denied (state_of self.old)))) }
    {
        self.count_opening(place)?;
        self.group.nots += 1;
        self.wants = Wants::Operand;
        Ok(())
    }

    fn count_opening(&mut self, place: usize) -> Result<(), QueryFault>
        requires { self.old.openings ≤ MAX_OPENINGS }
        ensures ok { OnOk result ((self.old.openings < MAX_OPENINGS) ×
            (self.new ≡ record self.old { openings = self.old.openings + 1 })) }
        ensures err { IfErr result (λ fault. (self.old.openings ≡ MAX_OPENINGS) ×
            (fault ≡ QueryFault.TooDeep place)) }
    {
        if self.openings >= MAX_OPENINGS {
            return Err(QueryFault::TooDeep { place });
        }
        self.openings += 1;
        Ok(())
    }

    /// Ends the innermost group, which is an operand of the one around it.
    fn close(&mut self, alloc: Global, place: usize) -> Result<(), QueryFault>
        requires { self.old.openings ≤ MAX_OPENINGS }
        ensures { Leaves result (state_of self.new)
            (within_limit place (closed (state_of self.old).outer (state_of self.old))) }
    {
        let Some(outer) = self.outer.pop() else {
            return Err(QueryFault::Refused { place });
        };
        let inner = mem::replace(&mut self.group, outer);
        let rule = inner.into_rule(alloc)?;
        self.join(alloc, rule)?;
        Ok(())
    }
}
