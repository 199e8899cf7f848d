// The worked example of a box, and posters on threads of their own beside a taker.
ghost use Rattle.std.specs.Prelude.{◌≡◌, ◌≤◌, All, IfOk, IfErr, IfSome};
ghost use Rattle.post_box.specs.Ends.{IsPosterOf, IsTakerOf};

use crowd_data::Post;
use fixed_vec::{List, NoMemory, V2};
use post_box::{MOST_TAKEN, PostBox, PostFault, Poster, Receipt, Taken, Taker, finish, open};
use std::alloc::Global;
use std::sync::Wait;
use std::test::Fail;
use std::thread;
use std::thread::{Promise, PromisedHandle, Scope, Threads};

fn along(x: i64) -> V2 {
    V2 { x, y: 0 }
}

// What the calls of the worked example answered, the first post taken, how many were taken after each take, and how
// many were left.
#[derive(Clone, Copy)]
struct Answered {
    posted: [Result<Receipt, PostFault>; 4],
    took: [Taken; 2],
    first: Option<Post>,
    taken: [usize; 2],
    left: usize,
}

// Posts twice with a mistake, once well and once more than may be, and takes twice.
fn post_and_take<R: Wait>(rt: &R, alloc: Global) -> Result<Answered, NoMemory> {
    let mut into = List::with_room(alloc, 2 * MOST_TAKEN)?;
    let (posts, mut posters, mut taker) = open(alloc, 1, 2, 1)?;
    let poster = &mut posters[0];
    let posted = [
        poster.post(rt, &posts, 2, along(16_385)),
        poster.post(rt, &posts, 1, along(16_385)),
        poster.post(rt, &posts, 1, along(5)),
        poster.post(rt, &posts, 1, along(5)),
    ];
    let first_answer = taker.take(rt, &posts, &mut into);
    let taken = into.items().len();
    let second_answer = taker.take(rt, &posts, &mut into);
    let left = finish(rt, alloc, posts, posters, taker)?;
    Ok(Answered {
        posted,
        took: [first_answer, second_answer],
        first: into.items().first().copied(),
        taken: [taken, into.items().len()],
        left: left.items().len(),
    })
}

#[test]
fn refuses_in_order_and_takes_once(rt: HostRuntime) -> Result<(), Fail> {
    let answered = post_and_take(&rt, rt.alloc())?;
    let receipt = Receipt {
        controller: 0,
        seq: 0,
    };
    assert_eq!(rt; answered.posted[0], Err(PostFault::BadAgent));
    assert_eq!(rt; answered.posted[1], Err(PostFault::BadVelocity));
    assert_eq!(rt; answered.posted[2], Ok(receipt));
    assert_eq!(rt; answered.posted[3], Err(PostFault::TooManyPosts));
    assert_eq!(rt; answered.took, [Taken::Emptied, Taken::Emptied]);
    let post = Post {
        controller: 0,
        seq: 0,
        agent: 1,
        vel: along(5),
    };
    assert_eq!(rt; answered.first, Some(post));
    assert_eq!(rt; answered.taken, [1, 1]);
    assert_eq!(rt; answered.left, 0);
    Ok(())
}

// What a controller of a test posts at this place.
fn post_at(controller: u32, place: u32) -> Post {
    Post {
        controller,
        seq: place,
        agent: place % 7,
        vel: along(i64::from(place % 10_000)),
    }
}

// Posts so many; false where one is refused.
fn post_all<R: Wait>(rt: &R, posts: &PostBox, poster: &mut Poster, count: u32) -> bool
    requires { IsPosterOf posts.now poster.old }
    ensures { IsPosterOf posts.now poster.new }
{
    for place in 0..count {
        let post = post_at(0, place);
        if poster.post(rt, posts, post.agent, post.vel).is_err() {
            return false;
        }
    }
    true
}

// Posts one more than is taken at once, and takes once: whether all were posted, what the taker answered, how many
// it took, and what was left.
fn take_all_but_one<R: Wait>(
    rt: &R,
    alloc: Global,
) -> Result<(bool, Taken, usize, List<Post>), NoMemory> {
    let mut into = List::with_room(alloc, MOST_TAKEN)?;
    let (posts, mut posters, mut taker) = open(alloc, 1, 7, 65_537)?;
    let posted = post_all(rt, &posts, &mut posters[0], 65_537);
    let took = taker.take(rt, &posts, &mut into);
    let left = finish(rt, alloc, posts, posters, taker)?;
    Ok((posted, took, into.items().len(), left))
}

#[test]
fn takes_enough_and_leaves_one(rt: HostRuntime) -> Result<(), Fail> {
    let (posted, took, taken, left) = take_all_but_one(&rt, rt.alloc())?;
    let last = Post {
        controller: 0,
        seq: 65_536,
        agent: 2,
        vel: along(5_536),
    };
    let left_last = left.items() == [last].as_slice();
    assert!(rt; posted);
    assert_eq!(rt; took, Taken::Enough);
    assert_eq!(rt; taken, 65_536);
    assert!(rt; left_last);
    Ok(())
}

// That a thread's poster is still of this box.
#[derive(Drop)]
struct OfBox<'s>(&'s PostBox);

impl<'s> Promise<Poster> for OfBox<'s> {
    ghost kept_by = { λ p poster. IsPosterOf p.0.now poster };
}

// Posts so many, and gives the poster back.
fn after_all<R: Wait>(rt: &R, posts: &PostBox, mut poster: Poster, count: u32) -> Poster
    requires { IsPosterOf posts.now poster }
    ensures { IsPosterOf posts.now result }
{
    let _ = post_all(rt, posts, &mut poster, count);
    poster
}

// Posts them on a thread, or at once where none can be made.
fn begin<'s, E, R: Threads + Wait + Sync>(
    scope: &'s Scope<'s, E>,
    rt: &'s R,
    posts: &'s PostBox,
    poster: Poster,
    count: u32,
) -> Result<PromisedHandle<Poster, OfBox<'s>>, Poster>
    requires { IsPosterOf posts.now poster }
    ensures there { IfOk result (λ thread. thread.promise.0.now ≡ posts.now) }
    ensures here { IfErr result (λ poster. IsPosterOf posts.now poster) }
{
    match scope.spawn_with(OfBox(posts), move || after_all(rt, posts, poster, count)) {
        Ok(child) => Ok(child),
        Err(refused) => Err((refused.value)()),
    }
}

// The poster, once its thread has ended.
fn end<'s, R: Threads + Wait>(
    rt: &R,
    posts: &'s PostBox,
    begun: Result<PromisedHandle<Poster, OfBox<'s>>, Poster>,
) -> Poster
    requires there { IfOk begun (λ thread. thread.promise.0.now ≡ posts.now) }
    requires here { IfErr begun (λ poster. IsPosterOf posts.now poster) }
    ensures { IsPosterOf posts.now result }
{
    match begun {
        Ok(child) => child.join(rt),
        Err(poster) => poster,
    }
}

// Takes while others post, until so many were taken or for some rounds.
fn take_beside<R: Wait>(
    rt: &R,
    posts: &PostBox,
    taker: &mut Taker,
    into: &mut List<Post>,
    all: usize,
) -> Result<(), NoMemory>
    requires { IsTakerOf posts.now taker.old }
    ensures { IsTakerOf posts.now taker.new }
{
    for _ in 0..100_000 {
        into.reserve(MOST_TAKEN)?;
        let _ = taker.take(rt, posts, into);
        if all <= into.items().len() {
            break;
        }
        thread::yield_now();
    }
    Ok(())
}

// One of the posters that are left.
fn next_of(posters: &mut Vec<Poster>, posts: &PostBox) -> Option<Poster>
    requires { All (IsPosterOf posts.now) posters.old.items }
    ensures rest { All (IsPosterOf posts.now) posters.new.items }
    ensures next { IfSome result (IsPosterOf posts.now) }
{
    posters.pop()
}

// The posts of three posters, each on a thread of its own, as a taker beside them took them, and those
// that it left.
fn three_beside_a_taker<R: Threads + Wait + Sync>(
    rt: &R,
    alloc: Global,
) -> Result<(List<Post>, List<Post>), NoMemory> {
    let mut taken = List::with_room(alloc, MOST_TAKEN)?;
    let Ok(mut back) = Vec::with_capacity(alloc, 3) else {
        return Err(NoMemory);
    };
    let (posts, mut posters, mut taker) = open(alloc, 3, 7, 10_000)?;
    let third = next_of(&mut posters, &posts);
    let second = next_of(&mut posters, &posts);
    let first = next_of(&mut posters, &posts);
    let (Some(first), Some(second), Some(third)) = (first, second, third) else {
        finish(rt, alloc, posts, posters, taker)?;
        return Err(NoMemory);
    };
    let shared = &posts;
    let (first, second, third, taker, taken) = thread::scope(
        thread::scope_env(),
        rt,
        |scope| -> (Poster, Poster, Poster, Taker, List<Post>)
            requires { IsPosterOf shared.now first × IsPosterOf shared.now second × IsPosterOf shared.now third × IsTakerOf shared.now taker }
            ensures { IsPosterOf shared.entry.now result.0 × IsPosterOf shared.entry.now result.1 × IsPosterOf shared.entry.now result.2 × IsTakerOf shared.entry.now result.3 }
        {
            let first = begin(scope, rt, shared, first, 3_334);
            let second = begin(scope, rt, shared, second, 3_333);
            let third = begin(scope, rt, shared, third, 3_333);
            let _ = take_beside(rt, shared, &mut taker, &mut taken, 10_000);
            let first = end(rt, shared, first);
            let second = end(rt, shared, second);
            let third = end(rt, shared, third);
            (first, second, third, taker, taken)
        },
    );
    back.push_reserved(first);
    back.push_reserved(second);
    back.push_reserved(third);
    let left = finish(rt, alloc, posts, back, taker)?;
    Ok((taken, left))
}

// Counts the posts of each controller, and asks that each is the next one that its controller posted.
fn count_next(next: &mut [u32; 3], posts: &[Post]) -> bool {
    for post in posts {
        let Some(count) = next.get_mut(post.controller as usize) else {
            return false;
        };
        if *post != post_at(post.controller, *count) {
            return false;
        }
        *count = count.wrapping_add(1);
    }
    true
}

#[test]
fn each_post_once_and_in_order_whatever_the_schedule(rt: HostRuntime) -> Result<(), Fail> {
    let (taken, left) = three_beside_a_taker(&rt, rt.alloc())?;
    let mut next = [0, 0, 0];
    assert!(rt; count_next(&mut next, taken.items()), "what was taken");
    assert!(rt; count_next(&mut next, left.items()), "what was left");
    assert_eq!(rt; next, [3_334, 3_333, 3_333]);
    Ok(())
}
