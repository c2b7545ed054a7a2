// Laws on the plane's calls as a turn and a retry make them, each the contract of a function that does nothing.
ghost use Rattle.std.specs.Prelude.{◌≡◌, ◌≢◌, ◌⊎◌, ℕ, ◌<◌, [], Bool, List, None, Option, Some, true, false, Contains, Result};
ghost use Rattle.std.specs.declared.alloc.AllocError.{AllocError};
ghost use Rattle.fib_addr.specs.Prefixes.{Prefix};
ghost use Rattle.fib_resolve.specs.Aims.{aim, marked_list};
ghost use Rattle.fib_resolve.specs.declared.types.End.{End};
ghost use Rattle.fib_resolve.specs.declared.types.Tables.{Tables};
ghost use Rattle.fib_core.specs.declared.word.Word.{Word};
ghost use Rattle.fib_pool.specs.declared.object.AdjacencyRecord.{AdjacencyRecord};
ghost use Rattle.fib_pool.specs.declared.object.Kind.TheVariants as kinds;
ghost use Rattle.fib_core_steady.specs.Aims.{IsLasting};
ghost use Rattle.fib_core_steady.specs.Names.{Names};
ghost use Rattle.fib_core_promise.specs.Stack.{Objects, aim_word, is_some};
ghost use Rattle.fib_plane_view.specs.declared.put.Put.{Put};
ghost use Rattle.fib_plane_view.specs.View.{Closes, GaveRecord, HasKind, IsBalance, IsLetGo, IsPlane, IsPut, IsScanned, IsTaken, TookOne, TookRecord, View};
ghost use Rattle.fib_plane_view.specs.Frames.{IsAmong, IsQuiet};
ghost use Rattle.fib_plane_view.specs.Promise.{Allows, EndsIn, IsBegun, MayPut, Promise, Serves};
ghost use Rattle.fib_resolve_changes.specs.Ranks.{IsRanked};
ghost use Rattle.fib_resolve_changes.specs.Wanted.{aim_by};
ghost use Rattle.fib_stack.specs.States.{Kept, State};
ghost use Rattle.fib_stack.specs.Steadiness.{IsSteady};
ghost use Rattle.fib_stack.specs.Buckets.{IsLooseBucket, recorded, state_of};

/// A put into a bucket leaves the prefix table its plies and its objects.
pub fn a_put_into_a_bucket_leaves_the_table()
    ensures { (look : Prefix → Option ℕ) (u v : View) (o k : ℕ) (w : Word) (a : Put) → IsPlane v → IsBalance u o
        → HasKind u o w → IsPut u v o k w a → IsQuiet look u v }
{}

/// So does taking a balance.
pub fn so_does_taking_a_balance()
    ensures { (look : Prefix → Option ℕ) (u v : View) (o : ℕ) → IsPlane v → IsTaken u v kinds.Balance o
        → IsQuiet look u v }
{}

/// So does letting a balance go that is no prefix's.
pub fn so_does_letting_one_go()
    ensures { (look : Prefix → Option ℕ) (u v : View) (o : ℕ) → IsPlane v → IsBalance u o → IsLetGo u v o
        → (IsAmong look o → ⊥) → IsQuiet look u v }
{}

/// So does taking an adjacency record.
pub fn so_does_taking_a_record()
    ensures { (look : Prefix → Option ℕ) (u v : View) (m : AdjacencyRecord) (r : Result (Option ℕ) AllocError)
        → IsPlane u → IsPlane v → TookOne u v m r → IsQuiet look u v }
{}

/// So does giving one back.
pub fn so_does_giving_one_back()
    ensures { (look : Prefix → Option ℕ) (u v : View) (m : AdjacencyRecord) → IsPlane v → GaveRecord u v m
        → IsQuiet look u v }
{}

/// So does a scan.
pub fn so_does_a_scan()
    ensures { (look : Prefix → Option ℕ) (u v : View) (left : ℕ) → IsPlane v → IsScanned u v left → IsQuiet look u v }
{}

/// And so do several calls.
pub fn so_do_several_calls()
    ensures { (look : Prefix → Option ℕ) (u v w : View) → IsQuiet look u v → IsQuiet look v w → IsQuiet look u w }
{}

/// A put into a bucket may be made where the bucket holds the word, or is none of an entry of all versions that all want alike.
pub fn a_put_into_a_loose_bucket_may_be_made()
    ensures { (p : Promise) (n : Names) (u : View) (o k : ℕ) (w : Word) → Allows p → IsBegun p → Serves p n u → IsPlane u
        → IsBalance u o → k < 16 → HasKind u o w → EndsIn p u w
        → (u.cell o k ≡ w) ⊎ IsLooseBucket p.versions n.balance o k → MayPut p u o k w }
{}

/// In a turn each bucket holds its word, or is loose; the names are those of the moment.
pub fn what_a_turn_stores_is_loose()
    ensures { (J : List Tables) (S : Tables) (s : State) (now : Objects) (e : Prefix) (o k : ℕ) → Contains J S → IsSteady J s
        → ((d : Prefix) (x : ℕ) → s.objects.balance d ≡ Some x → s.objects.balance e ≡ Some x → d ≡ e)
        → ((t : Prefix) → is_some (s.objects.balance t) ≡ true → now.balance t ≡ s.objects.balance t)
        → ((end : End) → s.holds e end ≡ true → now.record_of end ≡ s.objects.record_of end)
        → s.objects.balance e ≡ Some o → k < 16 → s.cell o k ≢ aim_word now (aim S e k)
        → IsLooseBucket J s.objects.balance o k }
{}

/// A deferred bucket is loose.
pub fn what_is_deferred_is_loose()
    ensures { (J : List Tables) (s : State) (e : Prefix) (o k : ℕ) → IsSteady J s
        → ((d : Prefix) (x : ℕ) → s.objects.balance d ≡ Some x → s.objects.balance e ≡ Some x → d ≡ e)
        → s.objects.balance e ≡ Some o → k < 16 → (s.late e k ≡ None → ⊥) → IsLooseBucket J s.objects.balance o k }
{}

/// So are the buckets of an object that is no prefix's.
pub fn what_is_new_is_loose()
    ensures { (J : List Tables) (balances : Prefix → Option ℕ) (o k : ℕ) → ((d : Prefix) → balances d ≡ Some o → ⊥)
        → IsLooseBucket J balances o k }
{}

/// Taking an adjacency record keeps what workers are promised, for the same names.
pub fn taking_a_record_keeps_the_promise()
    ensures { (p : Promise) (n : Names) (u v : View) (m : AdjacencyRecord) (o : ℕ) → TookRecord u v m o → Serves p n u
        → Serves p n v }
{}

/// So does giving one back.
pub fn giving_one_back_keeps_it()
    ensures { (p : Promise) (n : Names) (u v : View) (m : AdjacencyRecord) → GaveRecord u v m → Serves p n u → Serves p n v }
{}

/// So does a scan.
pub fn a_scan_keeps_it()
    ensures { (p : Promise) (n : Names) (u v : View) (left : ℕ) → IsScanned u v left → Serves p n u → Serves p n v }
{}

/// So does letting an object go that is no balance of an entry of all versions.
pub fn letting_an_object_go_keeps_it()
    ensures { (p : Promise) (n : Names) (u v : View) (o : ℕ) → IsLetGo u v o
        → (IsBegun p → (e : Prefix) → IsLasting p.versions e → n.balance e ≡ Some o → ⊥) → Serves p n u → Serves p n v }
{}

/// So does taking a balance.
pub fn taking_a_balance_keeps_it()
    ensures { (p : Promise) (n : Names) (u v : View) (o : ℕ) → IsTaken u v kinds.Balance o → Serves p n u → Serves p n v }
{}

/// Where nothing is queued and nothing is retired, no word that a bucket wants closes a cycle: a retry then leaves nothing deferred.
pub fn where_all_is_calm_nothing_closes_a_cycle()
    ensures { (S : Tables) (rank : Prefix → ℕ) (v : View) (balances : Prefix → Option ℕ) (was : Prefix → Bool)
        (late : Prefix → ℕ → Option Word) (holds : Prefix → End → Bool) (queued : Prefix → Bool) → IsRanked S rank
        → Kept S (state_of v balances was late holds queued) → IsPlane v
        → ((e : Prefix) (o : ℕ) → balances e ≡ Some o → IsBalance v o)
        → ((e : Prefix) → queued e ≡ false) → v.retired ≡ [] → (e : Prefix) (o k : ℕ) → balances e ≡ Some o
        → Closes v o (aim_word (record { balance = balances; record_of = recorded v }) (aim_by was (marked_list S e) k)) → ⊥ }
{}
