//! Lists, tokens and jobs, once each with ample memory.
use etx_lists::Queue;
use etx_matter::{Boxed, Bytes, Job, Listed, NameId, PAR, SharedTokens, Token, Tokens};
use std::test::Fail;

#[test]
fn lists_grow_and_are_cut(rt: HostRuntime) -> Result<(), Fail> {
    let alloc = rt.alloc();
    let mut list: Listed<u8> = Listed::new(alloc);
    assert!(rt; list.is_empty());
    assert!(rt; list.pop().is_none());
    list.push(1)?;
    list.extend_from_slice(&[2, 3])?;
    list.append(Bytes::from_slice(alloc, &[4])?)?;
    assert!(rt; list.as_slice() == [1, 2, 3, 4].as_slice());
    let copy = list.copy()?;
    assert!(rt; list.cut(1)?.as_slice() == [2, 3, 4].as_slice());
    assert!(rt; list.len() == 1);
    assert!(rt; copy.at(3).copied() == Some(4));
    assert!(rt; copy.at(4).is_none());
    let items = copy.into_vec();
    assert!(rt; Bytes::from_vec(items)?.pop() == Some(4));
    Ok(())
}

#[test]
fn lists_are_taken_from_at_the_front(rt: HostRuntime) -> Result<(), Fail> {
    let alloc = rt.alloc();
    let mut list: Listed<u8> = Listed::with_room(alloc, 4)?;
    list.append(Bytes::from_slice(alloc, &[1, 2, 3, 4])?)?;
    list.reserve(1)?;
    list.push(5)?;
    let mut queue = Queue::new(list);
    assert!(rt; queue.pop() == Some(1));
    let front = queue.take(alloc, queue.len().min(2))?;
    assert!(rt; front.as_slice() == [2, 3].as_slice());
    assert!(rt; queue.len() == 2 && !queue.is_empty());
    let mut seen = Bytes::new(alloc);
    for item in front {
        seen.push(item)?;
    }
    assert!(rt; seen.as_slice() == [2, 3].as_slice());
    Ok(())
}

#[test]
fn what_is_shared_or_boxed_is_seen(rt: HostRuntime) -> Result<(), Fail> {
    let alloc = rt.alloc();
    let shared = SharedTokens::new(alloc, Tokens::from_slice(alloc, &[Token::Param(1)])?)?;
    let again = shared.share()?;
    assert!(rt; again.as_slice().len() == 1);
    let mut boxed = Boxed::new(alloc, 1u8)?;
    *boxed.get_mut() = 2;
    assert!(rt; boxed.into_inner() == 2);
    Ok(())
}

#[test]
fn tokens_are_kept_and_copied(rt: HostRuntime) -> Result<(), Fail> {
    let alloc = rt.alloc();
    let mut tokens = Tokens::new(alloc);
    tokens.push(Token::Param(1))?;
    tokens.push(Token::Name(PAR))?;
    let copy = tokens.copy()?;
    assert!(rt; copy.len() == 2);
    assert!(rt; copy.at(0).copied() == Some(Token::Param(1)));
    assert!(rt; copy.at(1).copied() == Some(Token::Name(NameId(0))));
    assert!(rt; copy.at(2).copied() == None);
    Ok(())
}

#[test]
fn a_job_has_its_name_and_budget(rt: HostRuntime) -> Result<(), Fail> {
    let job = Job::new(Bytes::from_slice(rt.alloc(), b"job.tex")?, 1000);
    assert!(rt; job.name() == b"job.tex".as_slice());
    assert!(rt; job.budget() == 1000);
    Ok(())
}
